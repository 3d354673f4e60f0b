// Updates.

ghost use Rattle.std.specs.Prelude.{◌≡◌};
ghost use Rattle.lift_func.specs.Update.{update_faults};

use tsl_value::operation::Update;

/// Whether an update can fault.
pub fn update_can_fault(update: Update) -> bool
    ensures { result ≡ update_faults update }
{
    match update {
        Update::SetAdd => false,
        Update::SetRemove => false,
        Update::MapAdd => false,
        Update::MapRemove => false,
        Update::QueueAdd => false,
        Update::QueueTake => true,
    }
}
