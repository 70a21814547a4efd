// A run's call graph as text.
ghost use Rattle.profile.specs.Drawn.{Draws};

use crate::lines::refused;
use text::page::Page;

// Writes the call graph's file of the run that a bundle asks for, or why there is none; returns the length of the text.
pub fn draw(
    bytes: &[u8],
    res: &mut [u8; 4096],
    work: &mut [u8; 65536],
    file: &mut [u8; 65536],
) -> usize
    ensures { Draws bytes.now res.old work.old file.old res.new work.new file.new result }
{
    let Some(parts) = bundle::read(bytes) else {
        let mut page = Page::new(file);
        page.word(b"bundle\n");
        return page.at;
    };
    match runner::graph(
        parts.sheet,
        parts.arguments,
        parts.input,
        parts.limits,
        res,
        work,
        file,
    ) {
        Ok(drawn) => drawn.file,
        Err(why) => {
            let mut page = Page::new(file);
            refused(&mut page, why);
            page.at
        }
    }
}
