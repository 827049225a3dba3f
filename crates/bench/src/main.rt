// Runs the script on standard input with the tree exchange, and prints what each board settles on.
#![tactic(auto)]

use report::kinds::show_script;
use report::storage::MOST_BYTES;
use std::io::Read;

fn main(rt: HostRuntime) -> anyhow::Result<()> {
    let mut input = Vec::new(rt.alloc());
    rt.stdin().take(MOST_BYTES + 1).read_to_end(&mut input)?;
    show_script(&rt, &input)
}
