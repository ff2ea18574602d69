//! The words of the lines that declare windows, dialogs and views.

ghost use Rattle.std.specs.Prelude.{◌≡◌, [], ◌∷◌, ◌++◌, codes, map, IfOk};
ghost use Rattle.tv_declarations.specs.Spelling.Terms.{command_word, ends_words, marked_word, word_if};
ghost use Rattle.tv_words.specs.Fields.{number_word};
ghost use Rattle.tv_declarations.specs.Spelling.Nodes.{domain_words, marks_words, node_words, opens_words, text_word};

use crate::line::Line;
use std::alloc::{AllocError, Global};
use tv_declarations::keywords;
use tv_model::{Button, CheckBoxes, DialogHead, Input, Kind, ListBox, Node, RadioButtons};
use tv_valid::{Chars, DomainSpec};
use tv_words::Word;

/// Makes the line that declares the node.
pub fn node_line(alloc: Global, node: &Node) -> Result<Line<'_>, AllocError>
    ensures { IfOk result (λ line. line ≡ node_words node.now) }
{
    match &node.kind {
        Kind::Window(head) => named(alloc, keywords::WINDOW, &head.name, node)?
            .number(head.h)?
            .number(head.number)?
            .text(&head.title),
        Kind::Dialog(head) => named(alloc, keywords::DIALOG, &head.name, node)?
            .number(head.h)?
            .dialog(head),
        Kind::Text(shown) => unnamed(alloc, keywords::TEXT, node)?
            .number(shown.h)?
            .text(&shown.text),
        Kind::Label(label) => unnamed(alloc, keywords::LABEL, node)?
            .marked(&label.text)?
            .name(&label.link),
        Kind::Button(button) => named(alloc, keywords::BUTTON, &button.name, node)?.button(button),
        Kind::Input(input) => named(alloc, keywords::INPUT, &input.name, node)?
            .number(input.spec.max)?
            .input(input),
        Kind::CheckBoxes(boxes) => named(alloc, keywords::CHECKS, &boxes.name, node)?.check_boxes(
            boxes,
        ),
        Kind::RadioButtons(radios) => named(
            alloc,
            keywords::RADIOS,
            &radios.name,
            node,
        )?.radio_buttons(radios),
        Kind::List(list) => named(alloc, keywords::LIST, &list.name, node)?
            .number(list.h)?
            .list(list),
        Kind::Pane(pane) => named(alloc, keywords::PANE, &pane.name, node)?.number(pane.h),
    }
}

fn named<'a>(
    alloc: Global,
    keyword: &'a [u8],
    name: &'a Chars,
    node: &Node,
) -> Result<Line<'a>, AllocError>
    ensures { IfOk result (λ line. line
        ≡ Word.Bare keyword.now ∷ Word.Bare name.now ∷ number_word node.now.x ∷ number_word node.now.y
        ∷ number_word node.now.w ∷ []) }
{
    Line::new(alloc).keyword(keyword)?.name(name)?.place(node)
}

fn unnamed<'a>(alloc: Global, keyword: &'a [u8], node: &Node) -> Result<Line<'a>, AllocError>
    ensures { IfOk result (λ line. line
        ≡ Word.Bare keyword.now ∷ number_word node.now.x ∷ number_word node.now.y ∷ number_word node.now.w ∷ []) }
{
    Line::new(alloc).keyword(keyword)?.place(node)
}

impl<'a> Line<'a> {
    // Adds the node's column, row and width.
    fn place(self, node: &Node) -> Result<Line<'a>, AllocError>
        ensures { IfOk result (λ line. line ≡ self.entry ++ number_word node.now.x ∷ number_word node.now.y ∷ number_word node.now.w ∷ []) }
    {
        self.numbers(&[node.x, node.y, node.w])
    }

    fn dialog(self, head: &'a DialogHead) -> Result<Line<'a>, AllocError>
        ensures { IfOk result (λ line. line
            ≡ self.entry ++ Word.Quoted head.now.title ∷ (opens_words head.now.opens ++ (Word.Bare (codes "ends")
            ∷ ends_words head.now.ends))) }
    {
        self.text(&head.title)?
            .opens(head.opens)?
            .keyword(keywords::ENDS)?
            .ends(head.ends)
    }

    fn opens(self, opens: Option<i32>) -> Result<Line<'a>, AllocError>
        ensures { IfOk result (λ line. line ≡ self.entry ++ opens_words opens) }
    {
        match opens {
            None => Ok(self),
            Some(command) => self.keyword(keywords::OPENS)?.number(command),
        }
    }

    fn button(self, button: &'a Button) -> Result<Line<'a>, AllocError>
        ensures { IfOk result (λ line. line
            ≡ self.entry ++ marked_word button.now.text ∷ command_word button.now.command
            ∷ (word_if button.now.is_default (codes "default") ++ word_if button.now.grabs (codes "grab"))) }
    {
        self.marked(&button.text)?
            .command(button.command)?
            .keyword_if(button.is_default, keywords::DEFAULT)?
            .keyword_if(button.grabs, keywords::GRAB)
    }

    fn input(self, input: &'a Input) -> Result<Line<'a>, AllocError>
        ensures { IfOk result (λ line. line
            ≡ self.entry ++ (domain_words input.now.spec.domain ++ (Word.Quoted input.now.start
            ∷ (word_if input.now.validates (codes "validate") ++ (word_if input.now.spec.optional (codes "optional")
            ++ word_if input.now.spec.fill (codes "fill")))))) }
    {
        self.domain(&input.spec.domain)?
            .text(&input.start)?
            .input_flags(input.validates, input.spec.optional, input.spec.fill)
    }

    fn input_flags(
        self,
        validates: bool,
        optional: bool,
        fill: bool,
    ) -> Result<Line<'a>, AllocError>
        ensures { IfOk result (λ line. line
            ≡ self.entry ++ (word_if validates (codes "validate") ++ (word_if optional (codes "optional")
            ++ word_if fill (codes "fill")))) }
    {
        self.keyword_if(validates, keywords::VALIDATE)?
            .keyword_if(optional, keywords::OPTIONAL)?
            .keyword_if(fill, keywords::FILL)
    }

    fn domain(self, domain: &'a DomainSpec) -> Result<Line<'a>, AllocError>
        ensures { IfOk result (λ line. line ≡ self.entry ++ domain_words domain.now) }
    {
        match domain {
            DomainSpec::Any => self.keyword(keywords::ANY),
            DomainSpec::Filter(set) => self.keyword(keywords::FILTER)?.text(set),
            DomainSpec::Range { least, greatest } => self
                .keyword(keywords::RANGE)?
                .number(*least)?
                .number(*greatest),
            DomainSpec::Picture(text) => self.keyword(keywords::PICTURE)?.text(text),
        }
    }

    fn check_boxes(self, boxes: &'a CheckBoxes) -> Result<Line<'a>, AllocError>
        ensures { IfOk result (λ line. line ≡ self.entry ++ (map marked_word boxes.now.items ++ marks_words boxes.now.start)) }
    {
        self.marked_items(boxes.items.as_slice())?
            .marks(boxes.start.as_slice())
    }

    fn marks(self, start: &[i32]) -> Result<Line<'a>, AllocError>
        ensures { IfOk result (λ line. line ≡ self.entry ++ marks_words start.now) }
    {
        if start.is_empty() {
            Ok(self)
        } else {
            self.keyword(keywords::START)?.numbers(start)
        }
    }

    fn radio_buttons(self, radios: &'a RadioButtons) -> Result<Line<'a>, AllocError>
        ensures { IfOk result (λ line. line
            ≡ self.entry ++ (map marked_word radios.now.items ++ Word.Bare (codes "start")
            ∷ number_word radios.now.start ∷ [])) }
    {
        self.marked_items(radios.items.as_slice())?
            .start(radios.start)
    }

    fn list(self, list: &'a ListBox) -> Result<Line<'a>, AllocError>
        ensures { IfOk result (λ line. line
            ≡ self.entry ++ (map text_word list.now.items ++ Word.Bare (codes "start") ∷ number_word list.now.start ∷ [])) }
    {
        self.texts(list.items.as_slice())?.start(list.start)
    }

    fn texts(mut self, items: &'a [Chars]) -> Result<Line<'a>, AllocError>
        ensures { IfOk result (λ line. line ≡ self.entry ++ map text_word items.now) }
    {
        for item in items {
            self = self.text(item)?;
        }
        Ok(self)
    }

    fn start(self, item: i32) -> Result<Line<'a>, AllocError>
        ensures { IfOk result (λ line. line ≡ self.entry ++ Word.Bare (codes "start") ∷ number_word item ∷ []) }
    {
        self.keyword(keywords::START)?.number(item)
    }
}
