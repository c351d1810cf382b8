// The eight styles of a sheet.
ghost use Rattle.std.specs.Prelude.{◌≡◌, not, position};
ghost use Rattle.events.specs.Styles.{defaults, in_order, has_colours, styles_checked};

use super::refusal::Refusal;
use style::{BOLD, DARK_GRAY, ITALIC, Style};

const GREEN: u8 = 3;

const YELLOW: u8 = 4;

const CYAN: u8 = 7;

#[derive(Clone, Copy, PartialEq, Eq, Debug)]
pub struct MarkdownStyles {
    pub base: Style,
    pub code_inline: Style,
    pub code_block: Style,
    pub bold: Style,
    pub italic: Style,
    pub heading: Style,
    // Table rules and borders.
    pub table_border: Style,
    // Laid over the base style in header rows.
    pub table_header: Style,
}

impl MarkdownStyles {
    // The styles of a sheet for which none were set.
    pub fn new() -> MarkdownStyles
        ensures value { result ≡ defaults }
    {
        let base = Style::PLAIN;
        MarkdownStyles {
            base,
            code_inline: Style { fg: YELLOW, ..base },
            code_block: Style { fg: GREEN, ..base },
            bold: Style { add: BOLD, ..base },
            italic: Style {
                add: ITALIC,
                ..base
            },
            heading: Style {
                fg: CYAN,
                add: BOLD,
                ..base
            },
            table_border: Style {
                fg: DARK_GRAY,
                ..base
            },
            table_header: Style { add: BOLD, ..base },
        }
    }

    // The styles by their numbers.
    fn in_order(&self) -> [Style; 8]
        ensures value { result ≡ in_order self.now }
    {
        [
            self.base,
            self.code_inline,
            self.code_block,
            self.bold,
            self.italic,
            self.heading,
            self.table_border,
            self.table_header,
        ]
    }
}

// The number of the first style with a colour that does not exist.
fn first_bad(styles: &[Style; 8]) -> Option<usize>
    ensures value { result ≡ position (λ style. not (has_colours style)) styles.now }
{
    styles.iter().position(|style| !style.has_known_colours())
}

// Refuses the first style with a colour that does not exist.
#[tactic(auto, using(crate::proofs::Styled::the_first_bad_style_is_refused))]
pub fn check_styles(styles: &MarkdownStyles) -> Result<(), Refusal>
    ensures value { result ≡ styles_checked 0 (in_order styles.now) }
{
    match first_bad(&styles.in_order()) {
        Some(number) => Err(Refusal::Style(number as u8)),
        None => Ok(()),
    }
}
