// The index of the rules by the symbols of their bodies.
ghost use Rattle.std.specs.Prelude.{◌≡◌, ◌<◌, eqb, get_or, length};
ghost use Rattle.job.specs.Inside.Keys.{KeyFits, rule_of_key, Keys, rules_of_keys};
ghost use Rattle.machine.specs.Inside.Users.{UsersListed, UsersRoom, Appended, mentions, mentioning};

use crate::USER_RANKS;
use job::{Body, RULES, SYMBOLS};

// The rules whose sort keys are given in the order of their ranks, and for each symbol the ranks of those that have it
// in their bodies: those of symbol X stand at X * 256 in `users`, `used[X]` of them, in ascending order.
#[derive(Drop)]
pub struct RuleIndex<'a> {
    pub keys: &'a [u32],
    pub users: [u8; USER_RANKS],
    pub used: [u16; SYMBOLS],
}

impl<'a> RuleIndex<'a> {
    // Returning an index copies its 16 KB: a caller that has to save stack fills one in place, by list_rules.
    pub fn new(keys: &'a [u32]) -> RuleIndex<'a>
        requires rules { Keys keys.now }
        ensures keys { result.keys.now ≡ keys.now }
        ensures indexed { UsersListed (rules_of_keys keys.now) result.users result.used }
    {
        let mut index = RuleIndex {
            keys,
            users: [0; USER_RANKS],
            used: [0; SYMBOLS],
        };
        index.list_rules();
        index
    }

    // Fills its lists, which are empty, with the rules of its keys.
    pub fn list_rules(&mut self)
        requires rules { Keys self.old.keys.now }
        requires room { UsersRoom 0 self.old.users self.old.used }
        ensures keys { self.new.keys.now ≡ self.old.keys.now }
        ensures indexed { UsersListed (rules_of_keys self.old.keys.now) self.new.users self.new.used }
    {
        let keys = self.keys;
        for (k, key) in keys.iter().enumerate() {
            self.add(*key, k as u8);
        }
    }

    // Adds a rule, given by its sort key, to the lists of the symbols of its body.
    fn add(&mut self, key: u32, rank: u8)
        requires fits { KeyFits key × UsersRoom rank self.old.users self.old.used }
        ensures keys { self.new.keys.now ≡ self.old.keys.now }
        ensures long { (length self.new.users ≡ length self.old.users)
            × (length self.new.used ≡ length self.old.used) }
        ensures appended { Appended (λ X. mentions X (rule_of_key key)) rank self.old.users self.old.used
            self.new.users self.new.used }
    {
        let rule = records::rules::unpack(key);
        match rule.body {
            Body::Empty => {}
            Body::Unit(x) => self.append(x, rank),
            Body::Pair(x, y) => {
                self.append(x, rank);
                if y != x {
                    self.append(y, rank);
                }
            }
        }
    }

    // Adds a rank to the list of a symbol.
    fn append(&mut self, symbol: u8, rank: u8)
        requires room { (symbol < 64) × (get_or self.old.used symbol 0 < 256)
            × UsersRoom 256 self.old.users self.old.used }
        ensures keys { self.new.keys.now ≡ self.old.keys.now }
        ensures long { (length self.new.users ≡ length self.old.users)
            × (length self.new.used ≡ length self.old.used) }
        ensures appended { Appended (eqb symbol) rank self.old.users self.old.used
            self.new.users self.new.used }
    {
        let x = usize::from(symbol);
        let n = usize::from(self.used[x]);
        self.users[x * RULES + n] = rank;
        self.used[x] += 1;
    }

    // The ranks of the rules that have a symbol in their bodies.
    pub fn mentioning(&self, symbol: usize) -> &[u8]
        requires symbol { symbol < 64 }
        requires rules { Keys self.now.keys.now }
        requires indexed { UsersListed (rules_of_keys self.now.keys.now) self.now.users self.now.used }
        ensures ranks { result.now ≡ mentioning symbol 0 (rules_of_keys self.now.keys.now) }
    {
        let from = symbol * RULES;
        let end = from + usize::from(self.used[symbol]);
        let users: &[u8] = &self.users;
        &users[from..end]
    }
}
