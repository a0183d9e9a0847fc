// Runs scripts of questions for parts.
#![tactic(auto)]

use script::questions::Questions;
use script_run::run;

fn main(rt: HostRuntime) -> anyhow::Result<()> {
    run::<Questions>(&rt)
}
