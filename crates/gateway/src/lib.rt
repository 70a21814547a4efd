// The runner for C and Rust: gateway_c exports both functions.
#![tactic(auto)]

ghost use Rattle.std.specs.Prelude.{◌≡◌, ◌+◌, ◌*◌, true};
ghost use Rattle.runner.specs.Promise.{inputs, refusal_number, refusal_place};
ghost use Rattle.runner.specs.Graph.{graph_inputs};
ghost use Rattle.gateway.specs.Exported.{Exported, GraphExported, Refusable};
ghost use Rattle.gateway.specs.Proved.{Proved};

use rules::limits::Limits;
use runner::Refused;

// Runs a sheet. An ended run gives the length of the result sheet, a refusal its number * 2^32 + its place.
// The limits are three numbers, as include/klumavec.h has them for C.
pub fn klumavec_run(
    sheet: &[u8],
    arguments: &[u8],
    input: &[u8],
    loops: u64,
    stack: u64,
    budget: u64,
    res: &mut [u8],
    work: &mut [u8],
) -> u64
    ensures { Exported (inputs sheet.now arguments.now input.now loops stack budget res.old work.old) res.old work.old res.new work.new result }
{
    let limits = Limits {
        loops,
        stack,
        budget,
    };
    match runner::run(sheet, arguments, input, limits, res, work) {
        Ok(length) => length as u64,
        Err(why) => refusal(why),
    }
}

// Runs a sheet and writes its call graph. An ended run gives the file's length * 2^16 + the length of the result sheet, a refusal its number * 2^32 + its place.
pub fn klumavec_graph(
    sheet: &[u8],
    arguments: &[u8],
    input: &[u8],
    loops: u64,
    stack: u64,
    budget: u64,
    res: &mut [u8],
    work: &mut [u8],
    file: &mut [u8],
) -> u64
    ensures { GraphExported (graph_inputs sheet.now arguments.now input.now loops stack budget res.old work.old file.old) res.old work.old file.old res.new work.new file.new result }
{
    let limits = Limits {
        loops,
        stack,
        budget,
    };
    match runner::graph(sheet, arguments, input, limits, res, work, file) {
        Ok(drawn) => 65536 * drawn.file as u64 + drawn.sheet as u64,
        Err(why) => refusal(why),
    }
}

// The number that says a refusal, for C.
fn refusal(why: Refused) -> u64
    requires { Refusable (refusal_number why) (refusal_place why) }
    ensures { result ≡ refusal_number why * 4294967296 + refusal_place why }
{
    u64::from(why.number()) * 4294967296 + why.place() as u64
}

// What the specs claim is true: the contract asks for every proof, so none can be lost unnoticed.
fn claims_hold() -> bool
    ensures { (result ≡ true) × Proved }
{
    true
}
