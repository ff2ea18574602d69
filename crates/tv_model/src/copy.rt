//! Copies of nodes, and their comparison: by kind and by each field, names and texts too.

ghost use Rattle.std.specs.Prelude.{◌≡◌, ◌↔◌, IfOk, IsTrue};

use crate::kind::{
    Button, CheckBoxes, DialogHead, Input, Kind, Label, ListBox, MarkedText, Pane, RadioButtons,
    StaticText, WindowHead,
};
use crate::node::Node;
use std::alloc::{AllocError, Global};
use tv_valid::{Chars, Sequence};

impl MarkedText {
    /// Copies the text with its mark.
    pub fn copy(&self, alloc: Global) -> Result<MarkedText, AllocError>
        ensures { IfOk result (λ copy. copy ≡ self.now) }
    {
        Ok(MarkedText {
            text: self.text.copy(alloc)?,
            mark: self.mark,
        })
    }

    /// Whether the texts and their marks are the same.
    pub fn is(&self, other: &MarkedText) -> bool
        ensures { IsTrue result ↔ (self.now ≡ other.now) }
    {
        self.text.is(&other.text) && self.mark == other.mark
    }
}

impl WindowHead {
    /// Copies the declaration.
    pub fn copy(&self, alloc: Global) -> Result<WindowHead, AllocError>
        ensures { IfOk result (λ copy. copy ≡ self.now) }
    {
        Ok(WindowHead {
            name: self.name.copy(alloc)?,
            h: self.h,
            number: self.number,
            title: self.title.copy(alloc)?,
        })
    }

    /// Whether both declare the same.
    pub fn is(&self, other: &WindowHead) -> bool
        ensures { IsTrue result ↔ (self.now ≡ other.now) }
    {
        self.name.is(&other.name)
            && self.h == other.h
            && self.number == other.number
            && self.title.is(&other.title)
    }
}

impl DialogHead {
    /// Copies the declaration.
    pub fn copy(&self, alloc: Global) -> Result<DialogHead, AllocError>
        ensures { IfOk result (λ copy. copy ≡ self.now) }
    {
        Ok(DialogHead {
            name: self.name.copy(alloc)?,
            h: self.h,
            title: self.title.copy(alloc)?,
            opens: self.opens,
            ends: self.ends,
        })
    }

    /// Whether both declare the same.
    pub fn is(&self, other: &DialogHead) -> bool
        ensures { IsTrue result ↔ (self.now ≡ other.now) }
    {
        self.name.is(&other.name)
            && self.h == other.h
            && self.title.is(&other.title)
            && self.opens == other.opens
            && self.ends == other.ends
    }
}

impl StaticText {
    /// Copies the declaration.
    pub fn copy(&self, alloc: Global) -> Result<StaticText, AllocError>
        ensures { IfOk result (λ copy. copy ≡ self.now) }
    {
        Ok(StaticText {
            h: self.h,
            text: self.text.copy(alloc)?,
        })
    }

    /// Whether both declare the same.
    pub fn is(&self, other: &StaticText) -> bool
        ensures { IsTrue result ↔ (self.now ≡ other.now) }
    {
        self.h == other.h && self.text.is(&other.text)
    }
}

impl Label {
    /// Copies the declaration.
    pub fn copy(&self, alloc: Global) -> Result<Label, AllocError>
        ensures { IfOk result (λ copy. copy ≡ self.now) }
    {
        Ok(Label {
            text: self.text.copy(alloc)?,
            link: self.link.copy(alloc)?,
        })
    }

    /// Whether both declare the same.
    pub fn is(&self, other: &Label) -> bool
        ensures { IsTrue result ↔ (self.now ≡ other.now) }
    {
        self.text.is(&other.text) && self.link.is(&other.link)
    }
}

impl Button {
    /// Copies the declaration.
    pub fn copy(&self, alloc: Global) -> Result<Button, AllocError>
        ensures { IfOk result (λ copy. copy ≡ self.now) }
    {
        Ok(Button {
            name: self.name.copy(alloc)?,
            text: self.text.copy(alloc)?,
            command: self.command,
            is_default: self.is_default,
            grabs: self.grabs,
        })
    }

    /// Whether both declare the same.
    pub fn is(&self, other: &Button) -> bool
        ensures { IsTrue result ↔ (self.now ≡ other.now) }
    {
        self.name.is(&other.name)
            && self.text.is(&other.text)
            && self.command == other.command
            && self.is_default == other.is_default
            && self.grabs == other.grabs
    }
}

impl Input {
    /// Copies the declaration.
    pub fn copy(&self, alloc: Global) -> Result<Input, AllocError>
        ensures { IfOk result (λ copy. copy ≡ self.now) }
    {
        Ok(Input {
            name: self.name.copy(alloc)?,
            spec: self.spec.copy(alloc)?,
            start: self.start.copy(alloc)?,
            validates: self.validates,
        })
    }

    /// Whether both declare the same.
    pub fn is(&self, other: &Input) -> bool
        ensures { IsTrue result ↔ (self.now ≡ other.now) }
    {
        self.name.is(&other.name)
            && self.spec.is(&other.spec)
            && self.start.is(&other.start)
            && self.validates == other.validates
    }
}

impl CheckBoxes {
    /// Copies the declaration.
    pub fn copy(&self, alloc: Global) -> Result<CheckBoxes, AllocError>
        ensures { IfOk result (λ copy. copy ≡ self.now) }
    {
        Ok(CheckBoxes {
            name: self.name.copy(alloc)?,
            items: self.items.copy_by(alloc, MarkedText::copy)?,
            start: Sequence::from_vec(Vec::from_slice(alloc, self.start.as_slice())?),
        })
    }

    /// Whether both declare the same.
    pub fn is(&self, other: &CheckBoxes) -> bool
        ensures { IsTrue result ↔ (self.now ≡ other.now) }
    {
        self.name.is(&other.name)
            && self.items.is_by(&other.items, MarkedText::is)
            && self.start.as_slice() == other.start.as_slice()
    }
}

impl RadioButtons {
    /// Copies the declaration.
    pub fn copy(&self, alloc: Global) -> Result<RadioButtons, AllocError>
        ensures { IfOk result (λ copy. copy ≡ self.now) }
    {
        Ok(RadioButtons {
            name: self.name.copy(alloc)?,
            items: self.items.copy_by(alloc, MarkedText::copy)?,
            start: self.start,
        })
    }

    /// Whether both declare the same.
    pub fn is(&self, other: &RadioButtons) -> bool
        ensures { IsTrue result ↔ (self.now ≡ other.now) }
    {
        self.name.is(&other.name)
            && self.items.is_by(&other.items, MarkedText::is)
            && self.start == other.start
    }
}

impl ListBox {
    /// Copies the declaration.
    pub fn copy(&self, alloc: Global) -> Result<ListBox, AllocError>
        ensures { IfOk result (λ copy. copy ≡ self.now) }
    {
        Ok(ListBox {
            name: self.name.copy(alloc)?,
            h: self.h,
            items: self.items.copy_by(alloc, Chars::copy)?,
            start: self.start,
        })
    }

    /// Whether both declare the same.
    pub fn is(&self, other: &ListBox) -> bool
        ensures { IsTrue result ↔ (self.now ≡ other.now) }
    {
        self.name.is(&other.name)
            && self.h == other.h
            && self.items.is_by(&other.items, Chars::is)
            && self.start == other.start
    }
}

impl Pane {
    /// Copies the declaration.
    pub fn copy(&self, alloc: Global) -> Result<Pane, AllocError>
        ensures { IfOk result (λ copy. copy ≡ self.now) }
    {
        Ok(Pane {
            name: self.name.copy(alloc)?,
            h: self.h,
        })
    }

    /// Whether both declare the same.
    pub fn is(&self, other: &Pane) -> bool
        ensures { IsTrue result ↔ (self.now ≡ other.now) }
    {
        self.name.is(&other.name) && self.h == other.h
    }
}

impl Kind {
    /// Copies what the node is, with all that its line declares.
    pub fn copy(&self, alloc: Global) -> Result<Kind, AllocError>
        ensures { IfOk result (λ copy. copy ≡ self.now) }
    {
        Ok(match self {
            Kind::Window(head) => Kind::Window(head.copy(alloc)?),
            Kind::Dialog(head) => Kind::Dialog(head.copy(alloc)?),
            Kind::Text(text) => Kind::Text(text.copy(alloc)?),
            Kind::Label(label) => Kind::Label(label.copy(alloc)?),
            Kind::Button(button) => Kind::Button(button.copy(alloc)?),
            Kind::Input(input) => Kind::Input(input.copy(alloc)?),
            Kind::CheckBoxes(boxes) => Kind::CheckBoxes(boxes.copy(alloc)?),
            Kind::RadioButtons(radios) => Kind::RadioButtons(radios.copy(alloc)?),
            Kind::List(list) => Kind::List(list.copy(alloc)?),
            Kind::Pane(pane) => Kind::Pane(pane.copy(alloc)?),
        })
    }

    /// Whether both are of one kind, and their lines declare the same.
    pub fn is(&self, other: &Kind) -> bool
        ensures { IsTrue result ↔ (self.now ≡ other.now) }
    {
        match (self, other) {
            (Kind::Window(head), Kind::Window(other)) => head.is(other),
            (Kind::Dialog(head), Kind::Dialog(other)) => head.is(other),
            (Kind::Text(text), Kind::Text(other)) => text.is(other),
            (Kind::Label(label), Kind::Label(other)) => label.is(other),
            (Kind::Button(button), Kind::Button(other)) => button.is(other),
            (Kind::Input(input), Kind::Input(other)) => input.is(other),
            (Kind::CheckBoxes(boxes), Kind::CheckBoxes(other)) => boxes.is(other),
            (Kind::RadioButtons(radios), Kind::RadioButtons(other)) => radios.is(other),
            (Kind::List(list), Kind::List(other)) => list.is(other),
            (Kind::Pane(pane), Kind::Pane(other)) => pane.is(other),
            _ => false,
        }
    }
}

impl Node {
    /// Copies the node, its names and texts too.
    pub fn copy(&self, alloc: Global) -> Result<Node, AllocError>
        ensures { IfOk result (λ copy. copy ≡ self.now) }
    {
        Ok(Node {
            id: self.id,
            depth: self.depth,
            x: self.x,
            y: self.y,
            w: self.w,
            kind: self.kind.copy(alloc)?,
        })
    }

    /// Whether the nodes are the same: by kind and by each field, names and texts too.
    pub fn is(&self, other: &Node) -> bool
        ensures { IsTrue result ↔ (self.now ≡ other.now) }
    {
        self.id == other.id
            && self.depth == other.depth
            && self.x == other.x
            && self.y == other.y
            && self.w == other.w
            && self.kind.is(&other.kind)
    }
}
