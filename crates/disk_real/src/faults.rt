//! The count of faults that each object of the outside has.

ghost use Rattle.std.specs.Prelude.{◌≡◌, ◌≤◌, ◌+◌, Ok, IfOk};
ghost use Rattle.disk_model.specs.Images.{Rose, HasCause};
ghost use Rattle.disk_model.specs.Tables.{capped};

use disk_model::Failed;

/// How often an object of the outside has failed, a count that stays at 2^64 - 1 once it is there.
#[derive(Clone, Copy)]
pub struct Faults {
    pub count: u64,
}

impl Faults {
    /// No fault so far.
    pub fn none() -> Faults
        ensures { result.count ≡ 0 }
    {
        Faults { count: 0 }
    }

    /// Counts a fault.
    pub fn fail(&mut self) -> Failed
        ensures later { self.old.count ≤ self.new.count }
        ensures rose { Rose self.old.count self.new.count }
    {
        self.count = self.count.saturating_add(1);
        Failed
    }

    /// Adds the count of another object.
    pub fn add(&mut self, other: Faults)
        ensures { self.new.count ≡ capped (self.old.count + other.count) }
    {
        self.count = self.count.saturating_add(other.count);
    }

    /// What the system answered, as devices answer it: every error is a fault, and is counted.
    pub fn told<T, E: Drop>(&mut self, answer: Result<T, E>) -> Result<T, Failed>
        ensures value { IfOk result (λ value. answer ≡ Ok value) }
        ensures cause { HasCause self.old.count self.new.count result }
    {
        match answer {
            Ok(value) => Ok(value),
            Err(_) => Err(self.fail()),
        }
    }
}
