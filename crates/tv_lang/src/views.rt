//! The lines of windows and dialogs.

ghost use Rattle.std.specs.Prelude.{◌≡◌, ◌∷◌, ◌++◌, [], flat_map, map, replicate, IfOk};
ghost use Rattle.tv_declarations.specs.CanonicalDescription.{declarations_text};
ghost use Rattle.tv_declarations.specs.Spelling.{dialog_declarations, open_panes_after, view_declarations, window_declarations};
ghost use Rattle.tv_declarations.specs.Spelling.Declarations.{effect_words};

use crate::line::Line;
use crate::node::node_line;
use crate::printer::Printer;
use std::alloc::AllocError;
use tv_declarations::{Declaration, keywords};
use tv_model::{Dialog, Effect, Node, Rule, Window};

impl Printer {
    #[tactic(auto, using(crate::proofs::PrintTextLemmas::texts_joined))]
    pub(crate) fn windows(mut self, windows: &[Window]) -> Result<Printer, AllocError>
        ensures { IfOk result (λ printer. printer ≡ self ++ declarations_text (flat_map window_declarations windows.now)) }
    {
        for window in windows {
            self = self.window(window)?;
        }
        Ok(self)
    }

    #[tactic(auto, using(crate::proofs::PrintTextLemmas::texts_joined))]
    fn window(self, window: &Window) -> Result<Printer, AllocError>
        ensures { IfOk result (λ printer. printer ≡ self ++ declarations_text (window_declarations window.now)) }
    {
        self.node(&window.node)?
            .nodes(window.views.as_slice())?
            .end()
    }

    fn nodes(mut self, nodes: &[Node]) -> Result<Printer, AllocError>
        ensures { IfOk result (λ printer. printer ≡ self ++ declarations_text (map (λ node. Declaration.Node node) nodes.now)) }
    {
        for node in nodes {
            self = self.node(node)?;
        }
        Ok(self)
    }

    fn node(self, node: &Node) -> Result<Printer, AllocError>
        ensures { IfOk result (λ printer. printer ≡ self ++ declarations_text (Declaration.Node node.now ∷ [])) }
    {
        let line = node_line(self.alloc, node)?;
        self.line(&line)
    }

    #[tactic(auto, using(crate::proofs::PrintTextLemmas::texts_joined))]
    pub(crate) fn dialogs(mut self, dialogs: &[Dialog]) -> Result<Printer, AllocError>
        ensures { IfOk result (λ printer. printer ≡ self ++ declarations_text (flat_map dialog_declarations dialogs.now)) }
    {
        for dialog in dialogs {
            self = self.dialog(dialog)?;
        }
        Ok(self)
    }

    #[tactic(auto, using(crate::proofs::PrintTextLemmas::texts_joined))]
    fn dialog(self, dialog: &Dialog) -> Result<Printer, AllocError>
        ensures { IfOk result (λ printer. printer ≡ self ++ declarations_text (dialog_declarations dialog.now)) }
    {
        self.node(&dialog.node)?
            .views(dialog.views.as_slice())?
            .rules(dialog.rules.as_slice())?
            .end()
    }

    #[tactic(auto, using(crate::proofs::PrintTextLemmas::view_written, crate::proofs::PrintTextLemmas::views_written))]
    fn views(mut self, views: &[Node]) -> Result<Printer, AllocError>
        ensures { IfOk result (λ printer. printer ≡ self ++ declarations_text (view_declarations 0 views.now)) }
    {
        // How many panes are open.
        let mut panes = 0u32;
        for view in views {
            self = self
                .ends(panes.saturating_sub(u32::from(view.depth)))?
                .node(view)?;
            panes = open_after(view);
        }
        self.ends(panes)
    }

    #[tactic(auto, using(crate::proofs::PrintTextLemmas::end_written))]
    fn ends(mut self, count: u32) -> Result<Printer, AllocError>
        ensures { IfOk result (λ printer. printer ≡ self ++ declarations_text (replicate count Declaration.End)) }
    {
        for _ in 0..count {
            self = self.end()?;
        }
        Ok(self)
    }

    fn rules(mut self, rules: &[Rule]) -> Result<Printer, AllocError>
        ensures { IfOk result (λ printer. printer ≡ self ++ declarations_text (map (λ rule. Declaration.Rule rule) rules.now)) }
    {
        for rule in rules {
            self = self.rule(rule)?;
        }
        Ok(self)
    }

    fn rule(self, rule: &Rule) -> Result<Printer, AllocError>
        ensures { IfOk result (λ printer. printer ≡ self ++ declarations_text (Declaration.Rule rule.now ∷ [])) }
    {
        let line = Line::new(self.alloc)
            .effect(&rule.effect)?
            .keyword(keywords::WHEN)?
            .name(&rule.cluster)?
            .number(rule.item)?;
        self.line(&line)
    }
}

impl<'a> Line<'a> {
    // Adds what a rule does.
    fn effect(self, effect: &'a Effect) -> Result<Line<'a>, AllocError>
        ensures { IfOk result (λ line. line ≡ self.entry ++ effect_words effect.now []) }
    {
        match effect {
            Effect::Show(name) => self.keyword(keywords::SHOW)?.name(name),
            Effect::Enable(command) => self.keyword(keywords::ENABLE)?.command(*command),
        }
    }
}

// How many panes are open after the line of the node.
fn open_after(node: &Node) -> u32
    ensures { result ≡ open_panes_after node.now }
{
    let depth = u32::from(node.depth);
    if node.kind.is_pane() {
        depth + 1
    } else {
        depth
    }
}
