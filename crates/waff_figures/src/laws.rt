//! That the columns add up, and that each name has one line. Each law is a function that does
//! nothing and whose contract is the law.

ghost use Rattle.std.specs.Prelude.{◌≡◌, ℕ, Bool, List, All, length};
ghost use Rattle.std.specs.Cmp.{IsEquivalence};
ghost use Rattle.waff_model.specs.Tree.{Node};
ghost use Rattle.waff_assign.specs.Held.{AreKnown, Held};
ghost use Rattle.waff_plan.specs.Chain.{IsAmongFirst};
ghost use Rattle.waff_plan.specs.Work.{Work};
ghost use Rattle.waff_figures.specs.Groups.{AreGrouped};
ghost use Rattle.waff_figures.specs.Laws.{ChainAddsUp, CostsAddUp, MessagesAddUp, NameIsOnce};
ghost use Rattle.waff_figures.specs.Laws.{NamesAddUp, NamesInOrder};

/// The messages of the affinities and those of none add up to all messages.
pub fn messages_add_up()
    ensures { (tree : List Node) (assigned : List Held) (work : Work) (chain : List ℕ)
        → AreKnown tree assigned → MessagesAddUp tree assigned work chain }
{}

/// Their costs add up to the total.
pub fn costs_add_up()
    ensures { (tree : List Node) (assigned : List Held) (work : Work) (chain : List ℕ)
        → AreKnown tree assigned → CostsAddUp tree assigned work chain }
{}

/// Their costs on a chain add up to its cost.
pub fn chain_adds_up()
    ensures { (tree : List Node) (assigned : List Held) (work : Work) (chain : List ℕ)
        → AreKnown tree assigned → ChainAddsUp tree assigned work chain }
{}

/// Numbers in groups of those that are alike: each is in one group, and sums over the groups are the
/// sums over all.
pub fn numbers_are_grouped()
    ensures { (alike : ℕ → ℕ → Bool) (numbers : List ℕ) → IsEquivalence alike
        → AreGrouped alike numbers }
{}

/// What is told of the names of messages adds up: how many have each, their costs, and their costs
/// on a chain.
pub fn names_add_up()
    ensures { (names : List (List ℕ)) (work : Work) (chain : List ℕ)
        → length names ≡ work.count
        → All (IsAmongFirst work.count) chain → NamesAddUp names work chain }
{}

/// Each name that a message has has one line, and no other name has any.
pub fn name_is_once()
    ensures { (names : List (List ℕ)) → NameIsOnce names }
{}

/// The lines of the names stand in the order of the names' first messages.
pub fn names_in_order()
    ensures { (names : List (List ℕ)) → NamesInOrder names }
{}
