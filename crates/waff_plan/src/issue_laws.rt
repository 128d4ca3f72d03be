//! What holds of plans in the order of issue, where messages await others, as those of a client the one before. Each
//! law is a function that does nothing and whose contract is the law, for a tree of affinities and what
//! messages hold under it.

ghost use Rattle.std.specs.Prelude.{◌≡◌, ℕ, ◌↔◌, ◌⊎◌, List, [], length, All};
ghost use Rattle.waff_model.specs.declared.message.Message.{Message};
ghost use Rattle.waff_model.specs.Tree.{Node};
ghost use Rattle.waff_plan.specs.Work.{IsAmongFirst, IsAwaited, Work};
ghost use Rattle.waff_plan.specs.Timetable.{client_work_of_messages, clients_of, message_of, work_of_messages};
ghost use Rattle.waff_plan.specs.Clients.{AwaitsClients, IsTheOneBefore};
ghost use Rattle.waff_plan.specs.Obeys.{AwaitsEarlier, AwaitsNone, AwaitedOnce, IsForward};
ghost use Rattle.waff_plan.specs.Issues.{IsServedBefore};
ghost use Rattle.waff_plan.specs.IssueLaws.{AreOfNoClient, AreSameWork, all_by_list};
ghost use Rattle.waff_plan.specs.IssueLaws.{IssueIsTotal, IssueRises, StartsIssued, IsLawful};
ghost use Rattle.waff_plan.specs.IssueLaws.{LeastStartsAtOnce, LeastByIssueIsOne, IssueIsArrival};
ghost use Rattle.waff_assign.specs.Held.{Held};

/// By clients each message of a trace awaits the one before it of its client.
pub fn traces_follow_clients()
    ensures { (messages : List Message)
        → AwaitsClients (clients_of messages) (client_work_of_messages messages) }
{}

/// In all each message of a trace awaits the one before it of its client, and those of its list.
pub fn traces_await()
    ensures { (messages : List Message) (i m : ℕ) → IsAwaited ((work_of_messages messages).awaits m) i
        ↔ (IsTheOneBefore (clients_of messages) i m ⊎ IsAwaited (message_of messages m).after i) }
{}

/// Where all lists are empty there is nothing but clients to await.
pub fn no_lists_add_nothing()
    ensures { (messages : List Message) → All (λ message. message.after ≡ []) messages
        → (m : ℕ) → (work_of_messages messages).awaits m ≡ (client_work_of_messages messages).awaits m }
{}

/// The order of clients is a case of lists: each think time may as well be a piece of a list.
pub fn clients_are_lists()
    ensures { (messages : List Message)
        → AreSameWork (work_of_messages (all_by_list messages)) (work_of_messages messages) }
{}

/// Messages of no client await none, and have their own releases.
pub fn no_clients_are_followed()
    ensures none { (messages : List Message) → AreOfNoClient messages
        → AwaitsNone (work_of_messages messages) }
    ensures released { (messages : List Message) → AreOfNoClient messages
        → (m : ℕ) → IsAmongFirst (length messages) m
        → (work_of_messages messages).floor m ≡ (message_of messages m).release }
{}

/// What a message awaits by its client comes earlier in the trace.
pub fn clients_follow_earlier()
    ensures { (clients : List (List ℕ)) (work : Work) → AwaitsClients clients work
        → AwaitsEarlier work }
{}

/// By their clients no two messages await the same one.
pub fn clients_follow_once()
    ensures { (clients : List (List ℕ)) (work : Work) → AwaitsClients clients work
        → AwaitedOnce work }
{}

/// The order of issue is total.
pub fn issue_is_total()
    ensures { (work : Work) (start : ℕ → ℕ) → IssueIsTotal work start }
{}

/// A message is issued before those that await it.
pub fn issue_rises()
    ensures { (work : Work) (start : ℕ → ℕ) → AwaitsEarlier work → StartsIssued work start
        → IssueRises work start }
{}

/// Messages have places in the order of issue of a plan.
pub fn served_pairs_are_forward()
    ensures { (tree : List Node) (assigned : List Held) (work : Work) (start : ℕ → ℕ)
        → AwaitsEarlier work → StartsIssued work start
        → IsForward (IsServedBefore tree assigned work start) work }
{}

/// The laws of plans hold in the order of issue of a plan: of its chains, and of all plans that serve
/// messages that exclude each other in that order.
pub fn issue_is_lawful()
    ensures { (tree : List Node) (assigned : List Held) (work : Work) (start : ℕ → ℕ)
        → AwaitsEarlier work → StartsIssued work start
        → IsLawful (IsServedBefore tree assigned work start) work }
{}

/// The unlimited plan in the order of issue, in other words.
pub fn least_starts_at_once()
    ensures { (tree : List Node) (assigned : List Held) (work : Work) (start : ℕ → ℕ)
        → AwaitsEarlier work → LeastStartsAtOnce tree assigned work start }
{}

/// There is one unlimited plan in the order of issue.
pub fn least_by_issue_is_one()
    ensures { (tree : List Node) (assigned : List Held) (work : Work)
        → AwaitsEarlier work → LeastByIssueIsOne tree assigned work }
{}

/// Without clients and with releases that do not fall the order of issue is that of the trace.
pub fn issue_is_arrival()
    ensures { (tree : List Node) (assigned : List Held) (work : Work) (start : ℕ → ℕ)
        → IssueIsArrival tree assigned work start }
{}
