// Prints the checksum's table as a ROM listing: 16 rows of 16 entries, in order, four hexadecimal digits each. What it must print, the
// file `stdout`, is from Python's `binascii.crc_hqx`, by the command in docs/DECISIONS.md, 'The checksum'.
#![tactic(auto)]

use fields::crc;

fn main(rt: HostRuntime) {
    for (i, entry) in crc::table().iter().enumerate() {
        let behind = if i % 16 == 15 { '\n' } else { ' ' };
        // Where standard output takes nothing there is nobody to tell.
        let _ = print!(rt; "{entry:04X}{behind}");
    }
}
