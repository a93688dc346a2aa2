//! The end of the page: the totals, and what the page was made of.

use crate::again::Again;
use crate::cksum::checksum;
use crate::html::put_counted;
use crate::page::PageOf;
use report9::{Totals, put_totals_line};
use text9::{Done, Markup};

/// Puts it.
pub(crate) fn put_footer(
    html: &mut Markup,
    page: &PageOf<'_>,
    totals: &Totals,
    again: &Again<'_>,
) -> Done {
    let mut line = Vec::new(html.alloc());
    put_totals_line(&mut line, totals)?;
    let line = line.as_slice().strip_suffix(b"\n").unwrap_or(&[]);
    html.put_mark("<footer>\n<p><code>");
    html.put_foreign(line);
    html.put_mark("</code></p>\n<p>Made by <code>");
    again.put_shown(html, "page");
    html.put_mark("</code>, ");
    let version = page.version.strip_suffix(b"\n").unwrap_or(&[]);
    html.put_foreign(version);
    html.put_mark(", from a capture of ");
    put_counted(html, page.text.len() as u64, "byte", "bytes");
    html.put_filled(
        " with the <code>cksum</code> {n}. The page holds no script and loads nothing.</p>\n</footer>\n</main>\n</body>\n</html>\n",
        &[u64::from(checksum(page.text))],
    );
    Ok(())
}
