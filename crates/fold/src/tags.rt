ghost use Rattle.std.specs.Prelude.{◌≡◌, [], length};
ghost use Rattle.stack.specs.Stacks.{held, room, holding, pushed};
ghost use Rattle.fold.specs.Modes.{outside, start_mode, end_mode, moved};
ghost use Rattle.fold.specs.Inks.{in_force, start_ink, end_ink, restyled};

use super::mode::{InItem, Mode};
use events::event::{Kind, Tag};
use events::styles::MarkdownStyles;
use stack::Stack;
use style::{BOLD, ITALIC, Style};

// Where in the tags the fold is, and the styles in force.
#[derive(Drop)]
pub struct Tags<'a> {
    pub mode: Mode,
    pub stack: Stack<'a, Style>,
}

impl<'a> Tags<'a> {
    // Before the first event.
    pub fn new(slots: &'a mut [Style], base: Style) -> Tags<'a>
        ensures mode { result.mode ≡ outside }
        ensures held { held result.stack ≡ pushed (length slots.old) [] base }
        ensures room { room result.stack ≡ length slots.old }
    {
        let mut stack = Stack::new(slots);
        let _ = stack.push(base);
        Tags {
            mode: Mode::default(),
            stack,
        }
    }

    // The style in force.
    pub fn style(&self, styles: &MarkdownStyles) -> Style
        ensures value { result ≡ in_force styles.now (held self.now.stack) }
    {
        self.stack.top().unwrap_or(styles.base)
    }

    fn start(&mut self, styles: &MarkdownStyles, tag: Tag)
        ensures mode { self.new.mode ≡ start_mode self.old.mode tag }
        ensures stack { self.new.stack ≡ holding self.old.stack (start_ink styles.now (room self.old.stack) (held self.old.stack) tag) }
    {
        let style = self.style(styles);
        match tag {
            Tag::Strong => {
                let _ = self.stack.push(style.add_modifier(BOLD).patch(styles.bold));
            }
            Tag::Emphasis => {
                let _ = self
                    .stack
                    .push(style.add_modifier(ITALIC).patch(styles.italic));
            }
            Tag::Heading => {
                let _ = self.stack.push(styles.heading);
            }
            Tag::TableHead => {
                let _ = self.stack.push(style.patch(styles.table_header));
            }
            Tag::CodeBlock => self.mode.code = true,
            Tag::Paragraph if self.mode.item == InItem::First => self.mode.item = InItem::Later,
            Tag::Item => self.mode.item = InItem::First,
            Tag::Table => self.mode.entry = false,
            Tag::TableCell => self.mode.entry = true,
            Tag::Paragraph | Tag::List | Tag::TableRow => {}
        }
    }

    fn end(&mut self, tag: Tag)
        ensures mode { self.new.mode ≡ end_mode self.old.mode tag }
        ensures stack { self.new.stack ≡ holding self.old.stack (end_ink (held self.old.stack) tag) }
    {
        match tag {
            Tag::Strong | Tag::Emphasis | Tag::Heading | Tag::TableHead => {
                let _ = self.stack.pop();
            }
            Tag::CodeBlock => self.mode.code = false,
            Tag::Item => self.mode.item = InItem::No,
            Tag::TableCell => self.mode.entry = false,
            Tag::Paragraph | Tag::List | Tag::Table | Tag::TableRow => {}
        }
    }

    // An event moves on in the tags, and lays a style on those in force or takes one away.
    pub fn shift(&mut self, styles: &MarkdownStyles, kind: Kind)
        ensures mode { self.new.mode ≡ moved self.old.mode kind }
        ensures stack { self.new.stack ≡ holding self.old.stack (restyled styles.now (room self.old.stack) (held self.old.stack) kind) }
    {
        match kind {
            Kind::Start(tag) => self.start(styles, tag),
            Kind::End(tag) => self.end(tag),
            _ => {}
        }
    }
}
