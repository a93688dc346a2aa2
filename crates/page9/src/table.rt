//! The tables of numbers.

use text9::Markup;

/// Puts the head of a table: its columns, parted by bars. The second one is a picture where the table has one.
pub(crate) fn put_table_head(html: &mut Markup, names: &'static str, has_picture: bool) {
    html.put_mark("<div class=\"wide\"><table class=\"numbers\"><thead><tr>\n");
    let mut place = 0u32;
    for name in names.split('|') {
        let is_picture = has_picture && place == 1;
        place = place.saturating_add(1);
        let head = if is_picture {
            "<th scope=\"col\" class=\"picture\">"
        } else {
            "<th scope=\"col\">"
        };
        html.put_marks(&[head, name, "</th>\n"]);
    }
    html.put_mark("</tr></thead><tbody>\n");
}

/// Puts a cell with a number, or with a dash where there is none to tell.
pub(crate) fn put_number_cell(html: &mut Markup, number: Option<u64>) {
    match number {
        Some(number) => html.put_filled("<td>{c}</td>", &[number]),
        None => html.put_mark("<td>&ndash;</td>"),
    }
}
