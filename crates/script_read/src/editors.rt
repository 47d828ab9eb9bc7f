//! Editors, and what each has between two of its lines.

ghost use Rattle.std.specs.Prelude.{◌≡◌, ◌≤◌, SomeIff, IfOk, get_or, ◌-◌};
ghost use Rattle.std.proofs.Math.ListN.{set};
ghost use Rattle.script_read.specs.Writing as spec;

use ifc_base::Memory;
use std::alloc::Global;
use std::marker::Model;

/// How many editors there are.
const EDITORS: u32 = 16;

/// The number of an editor, from 1 to 16. Contracts see the number.
#[derive(Clone, Copy, Debug, PartialEq, Eq)]
pub(crate) struct Editor {
    number: u32,
}

impl Model for Editor {
    ghost use Rattle.std.specs.Prelude.{ℕ, ◌≤◌};

    ghost Value = { ℕ };

    ghost view = { λ editor. editor.number };

    ghost invariant = { λ editor. (1 ≤ editor.number) × (editor.number ≤ 16) };

    ghost inverse = { λ n. record { number = n } };
}

impl Editor {
    /// Editor 1.
    pub(crate) fn first() -> Editor
        ensures { result ≡ 1 }
    {
        Editor { number: 1 }
    }

    /// The editor of this number, if there is one.
    pub(crate) fn new(number: u32) -> Option<Editor>
        ensures { SomeIff result ((1 ≤ number) × (number ≤ 16)) number }
    {
        if number >= 1 && number <= EDITORS {
            Some(Editor { number })
        } else {
            None
        }
    }

    /// The number.
    pub(crate) fn get(self) -> u32
        ensures value { result ≡ self }
        ensures low { 1 ≤ result }
        ensures high { result ≤ 16 }
    {
        self.number
    }
}

/// What an editor has between two of its lines.
#[derive(Clone, Copy, Debug, PartialEq, Eq)]
pub(crate) struct Hands {
    /// How many edits its draft has, if it has one.
    pub draft: Option<u32>,
    /// A take is held.
    pub holds: bool,
}

/// What each editor has. Contracts see a list, in the order of the editors.
#[derive(Drop)]
pub(crate) struct Crew {
    hands: Vec<Hands>,
}

impl Model for Crew {
    ghost use Rattle.std.specs.Prelude.{◌≡◌, List, length};
    ghost use Rattle.script_read.specs.declared.editors.Hands.{Hands};

    ghost Value = { List Hands };

    ghost view = { λ crew. crew.hands.items };

    ghost invariant = { λ crew. length crew.hands.items ≡ 16 };
}

impl Crew {
    /// Nobody has anything.
    pub(crate) fn new(alloc: Global) -> Result<Crew, Memory>
        ensures { IfOk result (λ crew. crew ≡ spec.free_hands) }
    {
        let free = Hands {
            draft: None,
            holds: false,
        };
        Ok(Crew {
            hands: Vec::from_array(alloc, [free; 16])?,
        })
    }

    /// What the editor has. `O(1)`.
    pub(crate) fn of(&self, editor: Editor) -> Hands
        ensures { result ≡ get_or self.now (editor - 1) spec.free }
    {
        self.hands[editor.get() as usize - 1]
    }

    /// The editor now has this. `O(1)`.
    pub(crate) fn set(&mut self, editor: Editor, hands: Hands)
        ensures { self.new ≡ set self.old (editor - 1) hands }
    {
        self.hands[editor.get() as usize - 1] = hands;
    }

    /// Some editor holds. `O(editors)`.
    #[tactic(auto, unfolding(crate::specs::Writing::somebody_holds))]
    pub(crate) fn somebody_holds(&self) -> bool
        ensures { result ≡ spec.somebody_holds self.now }
    {
        self.hands.iter().any(|hands| hands.holds)
    }

    /// Some editor has a draft. `O(editors)`.
    #[tactic(auto, unfolding(crate::specs::Writing::somebody_drafts))]
    pub(crate) fn somebody_drafts(&self) -> bool
        ensures { result ≡ spec.somebody_drafts self.now }
    {
        self.hands.iter().any(|hands| hands.draft.is_some())
    }
}
