//! Compactions: tables of one level and of the next become tables of the latter.
ghost use Rattle.std.specs.Prelude.{◌≡◌, ℕ, ◌++◌, List, IsTrue, false};
ghost use Rattle.xdb_key.specs.Bounds.{Bounds, meets, covers};
ghost use Rattle.xdb_rangedel.specs.Content.{Item, here};
ghost use Rattle.xdb_rangedel.specs.Layers.{IsAllBelow};
ghost use Rattle.xdb_rangedel.specs.Members.{Has, SameMembers};
ghost use Rattle.xdb_stripes.specs.Floors.{floor_holds};
ghost use Rattle.xdb_stripes.specs.Keeps.{IsLimit};
ghost use Rattle.xdb_stripes.specs.declared.floor.Floor.{Floor};
ghost use Rattle.xdb_stripes.specs.declared.floor.Floor.TheVariants.{Ranges};
ghost use Rattle.xdb_laws.specs.Image.{image};
ghost use Rattle.xdb_laws.specs.Compaction.{LiesBetween, ChangesAround, ShareNoKey, LiesWithin, Move, IsCompaction, places_before, places_after};
ghost use Rattle.xdb_laws.specs.Ordered.{Ordered, IsNumberedUpTo, joined};

/// A take: what two neighbouring levels have inside a hull, and nothing else of them at these
/// keys, lies between what stands above it and what stands below it.
pub fn taken_content_lies_between()
    ensures { (above middle below : List (List Item)) (given rest : List Item) (floor : Floor)
        → Ordered (above ++ (middle ++ below)) → SameMembers (joined middle) (rest ++ given)
        → ShareNoKey rest given
        → ((k : List ℕ) (i : Item) → Has (joined below) i → IsTrue (here k i)
        → IsTrue (floor_holds floor k))
        → LiesBetween given (joined above ++ rest) (joined below) floor }
{}

/// Content of tables whose bounds don't meet a hull has no key with that of tables inside it; and
/// bounds that content lies within are a floor of its keys.
pub fn bounds_keep_apart()
    ensures apart { (hull : Bounds) (others inputs : List Bounds) (rest given : List Item)
        → LiesWithin others rest → LiesWithin inputs given
        → ((r : Bounds) → Has others r → meets hull r ≡ false)
        → ((r : Bounds) → Has inputs r → IsTrue (covers hull r)) → ShareNoKey rest given }
    ensures floor { (rs : List Bounds) (c : List Item) → LiesWithin rs c → (k : List ℕ) (i : Item)
        → Has c i → IsTrue (here k i) → IsTrue (floor_holds (Ranges rs) k) }
{}

/// While a compaction runs, steps that only put newer content above what it was given, and
/// nothing new below it at its keys, leave it between what stands above and below.
pub fn given_content_stays_between()
    ensures { (next : ℕ) (given upper lower new_upper new_lower : List Item) (floor : Floor)
        → LiesBetween given upper lower floor → IsAllBelow next given
        → ChangesAround next given upper lower new_upper new_lower
        → LiesBetween given new_upper new_lower floor }
{}

/// A compaction, also under a version that has changed since it was taken, keeps the order of all
/// places, the numbers, and the image at each stripe and above all numbers of what it was given:
/// the deletes that go hide nothing.
pub fn compactions_keep_content()
    ensures order { (stripes : List ℕ) (floor : Floor) (m : Move) → Ordered (places_before m)
        → IsCompaction stripes floor m → Ordered (places_after m) }
    ensures image { (stripes : List ℕ) (floor : Floor) (m : Move) → Ordered (places_before m)
        → IsCompaction stripes floor m → (limit : ℕ) → IsLimit m.given stripes limit
        → image (joined (places_before m)) limit ≡ image (joined (places_after m)) limit }
    ensures numbers { (stripes : List ℕ) (floor : Floor) (m : Move) (next : ℕ) (marks : List ℕ)
        → IsCompaction stripes floor m → IsNumberedUpTo next (joined (places_before m)) marks
        → IsNumberedUpTo next (joined (places_after m)) marks }
{}
