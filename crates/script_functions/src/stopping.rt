//! Products that are at fault.

ghost use Rattle.script_functions.specs.Inside.Faults.{IsStopOf};

use algebra::ProductFault;
use script_model::values::Refusal;
use script_values::Stop;

// Why there is no value where a product is at fault.
pub(crate) fn stop_of(fault: ProductFault) -> Stop
    ensures { IsStopOf fault result }
{
    match fault {
        ProductFault::DegreeOver => Stop::Refused(Refusal::DegreeOver),
        ProductFault::Memory => Stop::Memory,
    }
}
