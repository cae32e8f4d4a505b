ghost use Rattle.std.specs.Prelude.{◌≡◌};
ghost use Rattle.script.specs.Cause.{status_of};

use script::Cause;

/// How the program ended.
#[derive(Debug, Drop)]
pub struct Ended<D> {
    /// The status that the program ends with: that of the cause.
    pub status: u8,
    pub cause: Cause,
    /// The devices that it was given, with all that was made of them handed back.
    pub devices: D,
}

impl<D> Ended<D> {
    /// The end with a cause, and its status.
    pub fn new(cause: Cause, devices: D) -> Ended<D>
        ensures status { result.status ≡ status_of cause }
        ensures cause { result.cause ≡ cause }
        ensures devices { result.devices ≡ devices }
    {
        Ended {
            status: cause.status(),
            cause,
            devices,
        }
    }
}
