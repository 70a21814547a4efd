// The static library for C, whose header is include/klumavec.h: gateway's two functions under their own names, with the same promises.
#![tactic(auto)]

ghost use Rattle.runner.specs.Promise.{inputs};
ghost use Rattle.runner.specs.Graph.{graph_inputs};
ghost use Rattle.gateway.specs.Exported.{Exported, GraphExported};

// Runs a sheet. An ended run gives the length of the result sheet, a refusal its number * 2^32 + its place.
#[unsafe(no_mangle)]
pub extern "C" fn klumavec_run(
    sheet: &[u8],
    arguments: &[u8],
    input: &[u8],
    loops: u64,
    stack: u64,
    budget: u64,
    res: &mut [u8],
    work: &mut [u8],
) -> u64
    ensures { Exported (inputs sheet.now arguments.now input.now loops stack budget res.old work.old) res.old work.old res.new work.new result }
{
    gateway::klumavec_run(sheet, arguments, input, loops, stack, budget, res, work)
}

// Runs a sheet and writes its call graph. An ended run gives the file's length * 2^16 + the length of the result sheet, a refusal its number * 2^32 + its place.
#[unsafe(no_mangle)]
pub extern "C" fn klumavec_graph(
    sheet: &[u8],
    arguments: &[u8],
    input: &[u8],
    loops: u64,
    stack: u64,
    budget: u64,
    res: &mut [u8],
    work: &mut [u8],
    file: &mut [u8],
) -> u64
    ensures { GraphExported (graph_inputs sheet.now arguments.now input.now loops stack budget res.old work.old file.old) res.old work.old file.old res.new work.new file.new result }
{
    gateway::klumavec_graph(
        sheet, arguments, input, loops, stack, budget, res, work, file,
    )
}
