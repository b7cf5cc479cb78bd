// Lists the file on standard input: prints its sheet, or why it is refused. A refusal ends with status 1.
#![tactic(auto)]

use anyhow::anyhow;
use listing::{LONGEST_LISTED, page};
use std::io::Read;

fn main(rt: HostRuntime) -> anyhow::Result<()> {
    let mut bytes = Vec::new(rt.alloc());
    // one byte more tells that the file is too long
    rt.stdin()
        .take(LONGEST_LISTED as u64 + 1)
        .read_to_end(&mut bytes)?;
    match page(rt.alloc(), bytes.as_slice())? {
        Ok(text) => {
            print!(rt; "{text}")?;
            Ok(())
        }
        Err(refused) => {
            println!(rt; "{refused}")?;
            Err(anyhow!("no sheet is listed"))
        }
    }
}
