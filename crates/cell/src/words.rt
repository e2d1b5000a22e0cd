// What the word rules offer to the cell of one word.
ghost use Rattle.std.specs.Prelude.{◌≡◌, length};
ghost use Rattle.settle.specs.Column.{Grown};
ghost use Rattle.cell.specs.Rules.{Leaf};
ghost use Rattle.cell.specs.Cell.{Single};
ghost use Rattle.cell.specs.Open.{column_of, open_to, lexical_of, text_of, Beside};

use crate::cell::Cell;
use bound::Bound;
use chart::Chart;
use scale::Scale;
use settle::Row;

impl<S: Scale, C: Chart, B: Bound<S>> Cell<'_, '_, S, C, B> {
    // Offers what the rules of a word give.
    fn leaves(&mut self, word: u16)
        ensures beside { Beside self.old self.new }
        ensures grown { Grown S.scale (open_to B.limit self.old) (Leaf S.scale (lexical_of self.old) word (length (lexical_of self.old))) (column_of self.old) (column_of self.new) }
    {
        for rule in &self.task.rules.lexical {
            if rule.word == word {
                self.offer(usize::from(rule.category), S::price(rule.weight));
            }
        }
    }

    // Offers what the word rules give, where there is one word only.
    pub fn single(&mut self)
        ensures beside { Beside self.old self.new }
        ensures grown { Grown S.scale (open_to B.limit self.old) (Single S.scale (lexical_of self.old) (text_of self.old) self.old.b self.old.e) (column_of self.old) (column_of self.new) }
    {
        if self.b == self.e {
            let text = self.task.text;
            self.leaves(text[self.left]);
        }
    }
}
