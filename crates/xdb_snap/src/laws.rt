//! Laws of the definitions, each a function that does nothing.
ghost use Rattle.std.specs.Prelude.{◌≡◌, ◌++◌, ℕ, List, [], ◌∷◌, length, map, Some};
ghost use Rattle.std.specs.FinMap as fin;
ghost use Rattle.std.specs.Option.{option_map};
ghost use Rattle.xdb_key.specs.Bounds.{Bounds};
ghost use Rattle.xdb_plain.specs.Snapshots as plain;
ghost use Rattle.xdb_plain.specs.State.{Plain, Snapshot, groups, found_snap, without_snap};
ghost use Rattle.xdb_snap.specs.declared.snap.Snap.{Snap};
ghost use Rattle.xdb_snap.specs.Bare.{with_copy, bare, ArePlain, file_only_at};
ghost use Rattle.xdb_snap.specs.Changes.{made, refusal, without_ticket, turned, excised};
ghost use Rattle.xdb_plain.specs.Changes.{new_snap};
ghost use Rattle.xdb_plain.specs.Replies.{snap_replies, state_reply};
ghost use Rattle.xdb_plain.specs.declared.reply.Reply.TheVariants as reply;
ghost use Rattle.xdb_snap.specs.Listed.{named, without, changed};
ghost use Rattle.xdb_snap.specs.Replies.{replies_by};

/// Snapshots that are those of the plain model, but for the copies, stay so by what is done to both.
pub fn snapshots_stay_plain<H, T>()
    ensures made { (snaps : List (Snap H T)) (plains : List Snapshot) (s : Snap H T) (p : Snapshot) → ArePlain snaps plains
        → with_copy fin.empty s ≡ bare p → ArePlain (snaps ++ s ∷ []) (plains ++ p ∷ []) }
    ensures dropped { (snaps : List (Snap H T)) (plains : List Snapshot) (name : List ℕ) → ArePlain snaps plains
        → ArePlain (without name snaps) (without_snap name plains) }
    ensures ticket { (snaps : List (Snap H T)) (plains : List Snapshot) (name : List ℕ) → ArePlain snaps plains
        → ArePlain (changed name without_ticket snaps) plains }
    ensures turned { (snaps : List (Snap H T)) (plains : List Snapshot) (name : List ℕ) (hold : H) → ArePlain snaps plains
        → ArePlain (changed name (turned hold) snaps) (map (file_only_at name) plains) }
    ensures excised { (snaps : List (Snap H T)) (plains : List Snapshot) (load : List ℕ) (span : Bounds) → ArePlain snaps plains
        → ArePlain (map (excised load span) snaps) (map (plain.excised load (Some span)) plains) }
{}

/// What is found of a name is what the plain model finds, but for the copy.
pub fn snapshots_are_found<H, T>()
    ensures found { (snaps : List (Snap H T)) (plains : List Snapshot) (name : List ℕ) → ArePlain snaps plains
        → option_map (with_copy fin.empty) (named name snaps) ≡ option_map bare (found_snap name plains) }
    ensures count { (snaps : List (Snap H T)) (plains : List Snapshot) → ArePlain snaps plains → length snaps ≡ length plains }
{}

/// A snapshot is refused just as in the plain model, and is made as there.
pub fn snapshots_are_refused_alike<H, T>()
    ensures refused { (snaps : List (Snap H T)) (p : Plain) (name : List ℕ) (ranges : List Bounds) → ArePlain snaps p.snaps
        → snap_replies p name ranges ≡ replies_by (refusal name ranges snaps) (reply.Memory ∷ state_reply (plain.first_state ranges p.next (groups p)) ∷ []) }
    ensures made { (p : Plain) (name : List ℕ) (ranges : List Bounds) (ticket : T)
        → with_copy fin.empty (made {H = H} name ranges p.next (plain.first_state ranges p.next (groups p)) ticket) ≡ bare (new_snap p name ranges) }
{}
