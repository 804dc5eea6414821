//! The lines of texts that are refused, by their faults.
ghost use Rattle.std.specs.Prelude.{◌≡◌, ◌≢◌, IfErr, IfOk, OnOk};
ghost use Rattle.giop_ior_text.specs.declared.ior_text_fault.IorTextFault.TheVariants as ior;
ghost use Rattle.giop_json.specs.declared.form_fault.FormFault.TheVariants as form;
ghost use Rattle.giop_show.specs.declared.failure.Failure.TheVariants.{Memory};
ghost use Rattle.giop_show.specs.Refusals.{ior_refusal};

use crate::failure::Failure;
use giop_ior_text::IorTextFault;
use giop_json::FormFault;
use giop_lines::RefusalLine;

/// The line of a refused description or value in JSON. NoMemory has no line: it is a failure.
pub fn form_refusal(fault: FormFault) -> Result<RefusalLine, Failure>
    ensures value { IfOk result (λ line. line ≡ RefusalLine.Form fault) }
    ensures refused { OnOk result (fault ≢ form.NoMemory) }
{
    match fault {
        FormFault::BadJson | FormFault::BadShape | FormFault::BadDesc(_) | FormFault::Unfit => Ok(
            RefusalLine::Form(fault),
        ),
        FormFault::NoMemory => Err(Failure::Memory),
    }
}

/// The line of a refused text of a reference. A fault of its octets is reported as a fault of
/// octets. Memory where the text was refused for being out of memory.
pub fn ior_refusal(fault: IorTextFault) -> Result<RefusalLine, Failure>
    ensures value { IfOk result (λ line. line ≡ ior_refusal fault) }
    ensures refused { OnOk result (fault ≢ ior.NoMemory) }
    ensures err { IfErr result (λ failure. failure ≡ Memory) }
{
    match fault {
        IorTextFault::Cdr(fault) => Ok(RefusalLine::Octets(fault)),
        IorTextFault::BadPrefix | IorTextFault::BadHex => Ok(RefusalLine::IorText(fault)),
        IorTextFault::NoMemory => Err(Failure::Memory),
    }
}
