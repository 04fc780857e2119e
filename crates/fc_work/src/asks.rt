// What the searches of a phase ask.
use fc_request::{Request, RequestFault};

/// What the searches of a phase ask, in their order. Workers are lent it; it is behind a bound so that what crosses threads is
/// proved for it alone.
pub(crate) trait Asks: Sync {
    ghost use Rattle.std.specs.Prelude.{◌≡◌, List, Result};
    ghost use Rattle.fc_request.specs.declared.fault.RequestFault as fault;
    ghost use Rattle.fc_request.specs.declared.request.Request as request;

    ghost asks: { Self → List (Result request.Request fault.RequestFault) };

    fn asked(&self) -> &[Result<Request, RequestFault>]
        ensures { result.now ≡ asks self.now };
}

impl Asks for Vec<Result<Request, RequestFault>> {
    ghost asks = { λ s. s.items };

    fn asked(&self) -> &[Result<Request, RequestFault>] {
        self
    }
}
