// The lines that are the same in every script.

pub const SCHEMA: &[u8] =
    b"{\"schema\":{\"shards\":4,\"fields\":{\"brand\":\"string\",\"price\":\"plong\",\"tags\":\"strings\"}}}\n";

pub const COMMIT: &[u8] = b"{\"commit\":{}}\n";

pub const SYNC: &[u8] = b"{\"sync\":{}}\n";

pub const SEARCH: &[u8] =
    b"{\"search\":{\"session\":\"demo\",\"request\":{\"facet\":{\"brands\":{\"type\":\"terms\",\"field\":\"brand\",\"limit\":3,\"refine\":true,\"facet\":{\"total\":\"sum(price)\"}},\"tags\":{\"type\":\"terms\",\"field\":\"tags\",\"limit\":-1,\"sort\":\"index\"}}}}}\n";
