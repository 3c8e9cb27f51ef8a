//! What is said to whom asks for help, by the commands that words are read with. The gate compares it with `stdout`,
//! which is the file that `./paimon --help` shows.
#![tactic(auto)]

use pm_words::usage_text;

/// Prints it.
fn main(rt: HostRuntime) -> anyhow::Result<()> {
    let text = usage_text(rt.alloc())?;
    print!(rt; "{text}")?;
    Ok(())
}
