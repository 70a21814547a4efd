// A run that also writes its call graph as a file for a viewer.
ghost use Rattle.runner.specs.Graph.{GraphPromise, graph_inputs, CanDraw, Drew};

use crate::{Done, Refused, limited};
use rules::limits::{FILE_BYTES, Limits, RESULT_BYTES, WORK_BYTES};

// How long the result sheet of such a run is, and its file.
#[derive(Clone, Copy, Debug, PartialEq, Eq)]
pub struct Drawn {
    pub sheet: usize,
    pub file: usize,
}

// Runs a sheet as `run` does. After an end `file` begins with the call graph's file.
// It begins as `run` does: one function for both would be lent a file that `run` has not, and be no plainer.
pub fn graph(
    sheet: &[u8],
    arguments: &[u8],
    input: &[u8],
    limits: Limits,
    res: &mut [u8],
    work: &mut [u8],
    file: &mut [u8],
) -> Result<Drawn, Refused>
    ensures { GraphPromise (graph_inputs sheet.now arguments.now input.now limits.loops limits.stack limits.budget res.old work.old file.old) res.old work.old file.old res.new work.new file.new result }
{
    if res.len() < RESULT_BYTES || work.len() != WORK_BYTES {
        return Err(Refused::Sizes);
    }
    if file.len() < FILE_BYTES {
        return Err(Refused::File);
    }
    memory::clear(work); // what it held does not count
    let done = limited(sheet, arguments, input, limits, res, work);
    let drawn = draw(done, file, sheet, work);
    memory::clear(work); // nothing of the run is left
    drawn
}

// Writes the file of a run that ended, from what it left in work memory.
fn draw(
    done: Result<Done, Refused>,
    file: &mut [u8],
    sheet: &[u8],
    work: &[u8],
) -> Result<Drawn, Refused>
    requires { CanDraw sheet.now work.now file.old done }
    ensures { Drew sheet.now work.now done file.old file.new result }
{
    let done = done?;
    let size = callgrind::write(file, sheet, work, done.functions);
    Ok(Drawn {
        sheet: done.length,
        file: size,
    })
}
