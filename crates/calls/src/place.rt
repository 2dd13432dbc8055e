// A place, judged.
use door::place::harupesat_show;
use std::io;
use std::io::Write;

const PLACES: [(usize, usize); 9] = [
    (1, 3),
    (0, 7),
    (4, 3),
    (4, 4),
    (7, 0),
    (8, 0),
    (7, 1),
    (18446744073709551615, 1),
    (1, 18446744073709551615),
];

pub fn show(to: &mut impl Write) -> io::Result<()> {
    for (start, len) in PLACES {
        let p = harupesat_show(b"session", start, len);
        write!(to, "show session start {start} len {len}")?;
        write!(
            to,
            ": what {} number {} offset {}",
            p.what, p.number, p.offset
        )?;
        writeln!(to, " start {} len {}", p.start, p.len)?;
    }
    Ok(())
}
