// Runs scripts that speak of shelves.
#![tactic(auto)]

use script_run::run;
use shelf_script::shelves::Shelves;

fn main(rt: HostRuntime) -> anyhow::Result<()> {
    run::<Shelves>(&rt)
}
