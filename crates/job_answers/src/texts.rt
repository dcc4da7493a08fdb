// The lines of answers and faults.
ghost use Rattle.std.specs.Prelude.{◌≡◌, IfOk};
ghost use Rattle.job_answers.specs.Texts.{answer_line, show_line, fault_line};

use job_lines::faults::LineFault;
use records::refusal::Refusal;
use std::alloc::{AllocError, Global};

// `ok` and the number answered, or `no` and the refusal, with both counts where there is no way.
pub fn answer_line(heap: Global, answer: Result<u16, Refusal>) -> Result<Vec<u8>, AllocError>
    ensures { IfOk result (λ v. v.items ≡ answer_line answer) }
{
    let text = match answer {
        Ok(number) => format!(in heap; "ok {number}\n")?,
        Err(refusal) => {
            let number = refusal.number();
            match refusal {
                Refusal::NoWay { pads, cells } => format!(in heap; "no {number} {pads} {cells}\n")?,
                _ => format!(in heap; "no {number}\n")?,
            }
        }
    };
    Ok(text.into_bytes())
}

// A pad's name and the letters of its net's steps.
pub fn show_line(heap: Global, name: &[u8], letters: &[u8]) -> Result<Vec<u8>, AllocError>
    ensures { IfOk result (λ v. v.items ≡ show_line name.now letters.now) }
{
    [name, b" ", letters, b"\n"].concat(heap)
}

// `fault`, the number of the line, the word for the layer, and the number of the fault.
pub fn fault_line(heap: Global, line: usize, fault: LineFault) -> Result<Vec<u8>, AllocError>
    ensures { IfOk result (λ v. v.items ≡ fault_line line fault) }
{
    let layer = fault.layer();
    let number = fault.number();
    let text = format!(in heap; "fault {line} {layer} {number}\n")?;
    Ok(text.into_bytes())
}
