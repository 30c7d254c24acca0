// Calls the library for each record of the replay list on standard input, and counts those whose answer it does not give.
#![tactic(auto)]

mod directives;
mod expected;
mod headers;
mod list;
mod metadatas;
mod naks;

// The descriptor of standard input.
const STDIN_FILENO: i32 = 0;

const MOST_NAMED: u32 = 20;

// Whether the library gives what the record says behind its code; none for a byte that is no code, as the 0 behind the list's end is. The
// codes and the list's form stand in oracle/README.md.
fn replayed(code: u8) -> Option<bool> {
    // Kept: a match: the codes are the list's, and a table of functions is no plainer.
    let same = match code {
        1 => headers::checksum(),
        2 => headers::header_read(),
        3 => headers::header_build(),
        4 => headers::header_verify(),
        5 => headers::header_write(),
        6 => naks::nak_most(),
        7 => naks::nak_read(),
        8 => naks::nak_write(),
        9 => naks::nak_write_normal(),
        10 => naks::nak_write_large(),
        11 => naks::nak_reserve(),
        12 => naks::nak_finish(),
        13 => naks::nak_compare(),
        14 => naks::nak_compare_normal(),
        15 => naks::nak_compare_large(),
        16 => directives::eof_read(),
        17 => directives::eof_write(),
        18 => directives::ack_read(),
        19 => directives::ack_write(),
        20 => metadatas::metadata_read(),
        21 => metadatas::metadata_write(),
        _ => return None,
    };
    Some(same)
}

// The list says how many records it has; where they are fewer, or bytes are left, it is not whole.
fn report(rt: &impl Print, records: u32, replayed: u32, differing: u32) -> std::io::Result<()> {
    println!(rt; "{replayed} replayed, {differing} differ")?;
    if replayed < records {
        println!(rt; "the list ends early")?;
    }
    if !list::is_at_end() {
        println!(rt; "the list goes on")?;
    }
    Ok(())
}

// A record that differs is named by its number in the list, counted from 1; the first twenty of them alone.
fn main(rt: HostRuntime) {
    let records = list::four();
    let mut count = 0;
    let mut differing = 0;
    for before in 0..records {
        let code = list::byte();
        let Some(same) = replayed(code) else {
            break;
        };
        count = before + 1;
        if same {
            continue;
        }
        if differing < MOST_NAMED {
            // Where standard output takes nothing there is nobody to tell, and the list is read on.
            let _ = println!(rt; "differs: record {count}, code {code}");
        }
        differing += 1;
    }
    let _ = report(&rt, records, count, differing);
}
