// The terminal's state in words.
use printing::Output;
use terminal::Terminal;

pub fn print(out: &mut Output, t: &Terminal) {
    print_place(out, t);
    writeln!(
        out,
        "format mode {}, insert mode {}, host lock {}",
        mode(t.format),
        mode(t.insert),
        mode(t.lock)
    );
    writeln!(out, "pending transfer: {}", transfer(t.pending));
    print_stops(out, t);
    out.text(
        b"fields: a any character, l letters, d digits, t transmit-only; _ is a blank of an unprotected field, ? no printable character\nenhancements: A to O, the letter that sets each; B is inverse video\n\n",
    );
}

// The cursor's cell and the window's rows.
fn print_place(out: &mut Output, t: &Terminal) {
    writeln!(out, "cursor: row {}, column {}", t.cursor.row, t.cursor.col);
    let top = t.cursor.top;
    writeln!(out, "window: rows {top} to {}", top.saturating_add(23));
}

fn mode(is_on: bool) -> &'static str {
    if is_on { "on" } else { "off" }
}

fn transfer(pending: u8) -> &'static str {
    match pending {
        0 => "none",
        1 => "absolute cursor",
        2 => "window cursor",
        3 => "status",
        _ => "block",
    }
}

fn print_stops(out: &mut Output, t: &Terminal) {
    out.text(b"tab stops:");
    for (col, is_stop) in t.tabs.iter().enumerate() {
        if *is_stop {
            write!(out, " {col}");
        }
    }
    out.text(if t.tabs.contains(&true) {
        b"\n"
    } else {
        b" none\n"
    });
}
