// What a network's events say of what its links carried. The functions do nothing; their contracts are the laws.
ghost use Rattle.std.specs.Prelude.{◌≡◌, ℕ, List, [], ◌∷◌, ◌++◌, Option};
ghost use Rattle.server_ports.specs.Events.{Event, Began, Retired, BeginsInOrder, exchanges};

/// Where a link is retired before another begins, one exchange is added: the bytes that it no longer had to be taken, and those
/// that it was given.
pub fn a_retired_link_adds_its_exchange()
    ensures { (events : List Event) (dialled : Option ℕ) (taken rest given : List ℕ)
        → exchanges ((events ++ Began dialled (taken ++ rest) ∷ []) ++ Retired rest given ∷ []) ≡ exchanges events ++ record { taken = taken; given = given } ∷ [] }
{}

/// A share that comes back adds its exchanges.
pub fn a_share_adds_its_exchanges()
    ensures { (mine theirs : List Event) → BeginsInOrder theirs → exchanges (mine ++ theirs) ≡ exchanges mine ++ exchanges theirs }
{}
