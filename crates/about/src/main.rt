// Writes the version and the date of the layout, in the words of docs/SHEET.md.

#![tactic(auto)]

use std::io;
use version::{Layout, Version};

fn main(rt: HostRuntime) -> io::Result<()> {
    println!(rt;
        "Engine version: {}.{}.{}",
        Version::MAJOR,
        Version::MINOR,
        Version::PATCH
    )?;
    println!(rt;
        "Table layout of: {}-{:02}-{:02}",
        Layout::YEAR,
        Layout::MONTH,
        Layout::DAY
    )
}
