//! Writing the scenario of a number.
ghost use Rattle.std.specs.Prelude.{◌≡◌, Some, IfOk};
ghost use Rattle.scenario_text.specs.Printed.{text_of};
ghost use Rattle.scenario_make.specs.Scenarios.{made_scenario};
ghost use Rattle.tab_call.specs.Calls.{HasWriteCause, IsMakeEnd};

use crate::status::Status;
use address::Text;
use scenario_make::{MakeError, make};
use std::alloc::Global;
use tab_io::{Sink, WriteFault, write_all};

/// Makes the scenario of a number and writes its text. What takes memory is made before the first write.
pub(crate) fn write_made<K: Sink>(alloc: Global, n: u32, sink: &mut K) -> Status
    ensures kind { IsMakeEnd result }
    ensures written { HasWriteCause result (Some (text_of (made_scenario n))) (K.taken sink.old) (K.taken sink.new) (K.faults sink.old) (K.faults sink.new) }
{
    match made_text(alloc, n) {
        Ok(text) => match write_all(sink, text.bytes()) {
            Ok(()) => Status::Done,
            Err(WriteFault) => Status::WriteFault,
        },
        Err(MakeError::UrlOverflow(overflowed)) => Status::UrlOverflow(overflowed),
        Err(MakeError::OutOfMemory) => Status::OutOfMemory,
    }
}

/// The text of the scenario that is made of a number.
fn made_text(alloc: Global, n: u32) -> Result<Text, MakeError>
    ensures { IfOk result (λ text. text ≡ text_of (made_scenario n)) }
{
    let scenario = make(alloc, n)?;
    let text = scenario.print(alloc)?;
    Ok(text)
}
