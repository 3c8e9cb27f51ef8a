//! What holds of all names, and of all keys and groups.

ghost use Rattle.std.specs.Prelude.{◌≡◌, ◌≢◌, ◌↔◌, ℕ, List, ◌∷◌, ◌++◌, false};
ghost use Rattle.std.specs.declared.cmp.Ordering.TheVariants.{Equal};
ghost use Rattle.uuid.specs.Text.{is_hex_digit};
ghost use Rattle.pm_values.specs.GroupOrder.{group_cmp};
ghost use Rattle.pm_values.specs.Names.{Naming, IsNaming, name_of};
ghost use Rattle.pm_values.specs.Order.{Values, key_cmp};
ghost use Rattle.pm_values.specs.declared.group.Group.{Group};

/// With one prefix and one suffix, equal names have the same session, actor, base and count. So
/// the names of one maker differ, and those of makers that differ. A prefix that goes on with
/// another byte than a digit of the session, as `manifest-list-` after `manifest-`, gives other names.
pub fn names_law()
    ensures one { (prefix suffix : List ℕ) (m n : Naming) → IsNaming m → IsNaming n
        → name_of prefix suffix m ≡ name_of prefix suffix n → m ≡ n }
    ensures longer { (prefix more s t : List ℕ) (b : ℕ) (m n : Naming)
        → is_hex_digit b ≡ false → name_of prefix s m ≢ name_of (prefix ++ b ∷ more) t n }
{}

/// Only equal keys tie, and only equal groups: a map by either has one entry for each.
pub fn order_law()
    ensures keys { (a b : Values) → (key_cmp a b ≡ Equal) ↔ (a ≡ b) }
    ensures groups { (a b : Group) → (group_cmp a b ≡ Equal) ↔ (a ≡ b) }
{}
