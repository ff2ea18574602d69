//! Static texts.

ghost use Rattle.std.specs.Prelude.{◌≡◌, ◌↔◌, IfOk, IsErrOf, false};
ghost use Rattle.tv_model.specs.Description.Rectangles.{place_of_node, IsSmallRect};
ghost use Rattle.tv_view.specs.Meaning.{fresh};
ghost use Rattle.tv_controls.specs.StaticText.{is_text_kind, text_leaf};

use bitflags::Flags;
use std::alloc::Global;
use std::marker::Model;
use tv_cells::{Canvas, Damage, Rect, Screen, lay};
use tv_event::{Event, Options, Phase, State};
use tv_faces::{PiecedFace, PiecedText, rect_at};
use tv_model::{Id, Kind, Node, Record, natural};
use tv_palette::Role;
use tv_valid::Chars;
use tv_view::{ControlFault, Env, Reaction, Rules, View, has_same_colours};

/// A text that stands in a window or a dialog, a piece between line ends in each row.
#[derive(Drop)]
pub struct StaticText {
    id: Id,
    depth: u8,
    x: i32,
    y: i32,
    w: i32,
    h: i32,
    text: PiecedText,
    is_shown: bool,
}

impl Model for StaticText {
    ghost use Rattle.tv_model.specs.Description.Rectangles.{rect, IsSmallRect};
    ghost use Rattle.tv_controls.specs.StaticText.{TextState};

    ghost Value = { TextState };

    ghost view = { λ s. record { id = s.id; depth = s.depth; x = s.x; y = s.y; w = s.w; h = s.h; text = s.text; is_shown = s.is_shown } };

    ghost invariant = { λ s. IsSmallRect (rect s.x s.y s.w s.h) };
}

impl StaticText {
    /// Makes the static text of a node, whose rectangle must lie within -300 to 300, as those of descriptions do.
    ///
    /// # Errors
    ///
    /// `WrongKind` for any other node, `NoMemory` where there is none for the text.
    pub fn new(alloc: Global, node: &Node) -> Result<StaticText, ControlFault>
        requires { IsSmallRect (place_of_node node.now) }
        ensures made { IfOk result (λ view. text_leaf view ≡ fresh node.now) }
        ensures wrong { IsErrOf result ControlFault.WrongKind ↔ (is_text_kind node.now.kind ≡ false) }
    {
        match &node.kind {
            Kind::Text(declared) => {
                let text = Chars::from_slice(alloc, declared.text.as_slice())?;
                Ok(StaticText {
                    id: node.id,
                    depth: node.depth,
                    x: node.x,
                    y: node.y,
                    w: node.w,
                    h: declared.h,
                    text: PiecedText::new(alloc, text)?,
                    is_shown: true,
                })
            }
            _ => Err(ControlFault::WrongKind),
        }
    }
}

#[tactic(auto, unfolding(tv_view::specs::Reactions::answer, tv_view::specs::Effects::handled, tv_view::specs::Calls::focused_to, tv_view::specs::Calls::item_pressed, tv_view::specs::Calls::invalid_id, tv_view::specs::Calls::gathered, tv_view::specs::Calls::set_from, tv_view::specs::Calls::applied, tv_view::specs::Drawing::leaf_layers))]
impl View for StaticText {
    ghost meaning = { text_leaf };

    fn id(&self) -> Id {
        self.id
    }

    fn bounds(&self) -> Rect {
        rect_at(&self.x, &self.y, &self.w, &self.h)
    }

    fn state(&self) -> State {
        if self.is_shown {
            State::VISIBLE
        } else {
            State::empty()
        }
    }

    fn options(&self) -> Options {
        Options::empty()
    }

    fn handle(
        &mut self,
        _event: &Event,
        _phase: Phase,
        _env: &Env,
        _damage: &mut Damage,
    ) -> Reaction {
        Reaction::Pass
    }

    fn draw(&self, screen: &mut Screen, canvas: Canvas, env: &Env) {
        if !self.is_shown {
            return;
        }
        let bounds = rect_at(&self.x, &self.y, &self.w, &self.h);
        let face = PiecedFace {
            text: &self.text,
            attr: Role::StaticText(env.owner).attr(env.chain),
        };
        lay(
            screen,
            canvas.sub(bounds),
            natural(&self.w),
            natural(&self.h),
            &face,
        );
    }

    fn focus_to(&mut self, _id: Id, _damage: &mut Damage) -> bool {
        false
    }

    fn press_item(&mut self, _id: Id, _item: u8, _damage: &mut Damage) {}

    fn held(&self) -> bool {
        false
    }

    fn first_invalid(&self) -> Option<Id> {
        None
    }

    fn get(&self, _values: &mut Record) {}

    fn set(&mut self, _values: &Record, _damage: &mut Damage) {}

    fn apply(&mut self, rules: &Rules, damage: &mut Damage) {
        let was_shown = self.is_shown;
        self.is_shown = rules.shows(self.id);
        if self.is_shown != was_shown {
            damage.add(self.bounds());
        }
    }

    fn env_damage(&self, old: &Env, new: &Env, damage: &mut Damage) {
        if self.is_shown && !has_same_colours(old, new) {
            damage.add(self.bounds());
        }
    }

    fn is_fresh(&self, node: &Node) -> bool {
        let is_same_text = match &node.kind {
            Kind::Text(declared) => declared.h == self.h && declared.text.is(self.text.chars()),
            _ => false,
        };
        is_same_text
            && self.is_shown
            && node.id == self.id
            && node.depth == self.depth
            && node.x == self.x
            && node.y == self.y
            && node.w == self.w
    }
}
