//! The levels of the list: its length at the end of each.
ghost use Rattle.std.specs.Prelude.{◌≡◌, ◌≤◌, [], ◌∷◌, ◌++◌, length};

use super::Order;

impl Order {
    /// Ends a level at the present end of the list. Requires at most as many levels before as the
    /// order has room for pairs.
    pub fn end_level(&mut self)
        requires { length self.old.levels ≤ self.old.cap_pairs }
        ensures { self.new ≡ record self.old { levels = self.old.levels ++ length self.old.list ∷ [] } }
    {
        self.levels.push_reserved(self.count);
    }

    /// Returns the length of the list at the end of each level, the first level first. Returns an
    /// empty slice if the order keeps no levels.
    pub fn levels(&self) -> &[u32]
        ensures { result.now ≡ self.now.levels }
    {
        &self.levels
    }

    /// Forgets all levels. Leaves the list unchanged.
    pub fn forget_levels(&mut self)
        ensures { self.new ≡ record self.old { levels = [] } }
    {
        self.levels.clear();
    }
}
