// The levels of a pattern text and the elements in them.
ghost use Rattle.std.specs.Prelude.{◌≡◌, ◌<◌, ◌≤◌, true, false, is_ok};
ghost use Rattle.texts.specs.PatternSteps.{at_stop, Ended, Onward, Shut, Went};

use crate::pattern::reading::PatternReader;
use crate::token::Token;
use patterns::Element;
use patterns::limits::MAX_GROUPS;
use refusals::Cause;

impl<'a, 'b> PatternReader<'a, 'b> {
    // Whether the next token ends a level.
    fn at_stop(&self) -> bool
        ensures { result ≡ at_stop self.now }
    {
        let mut ahead = self.reader;
        matches!(ahead.next(), Token::GroupClose | Token::End)
    }

    // Closes the group that stands at a place of the row.
    fn close(&mut self, group: usize) -> Result<(), Cause>
        requires stop { at_stop self.old ≡ true }
        requires within { group < self.old.row.row.count }
        ensures onward { Onward self.old self.new }
        ensures shut { Shut group self.old self.new result }
    {
        let Token::GroupClose = self.reader.next() else {
            return Err(Cause::Unpaired);
        };
        if self.row.count() == group + 1 {
            return Err(Cause::Unpaired);
        }
        self.row.end_group(group);
        Ok(())
    }

    /// Ends a pattern.
    // Kept beside `close`: they differ in the token and in where the elements begin, and each promises another end.
    pub(crate) fn finish(&mut self) -> Result<(), Cause>
        requires { at_stop self.old ≡ true }
        ensures { Ended self.old self.new result }
    {
        let Token::End = self.reader.next() else {
            return Err(Cause::Unpaired);
        };
        if self.row.count() == 0 {
            return Err(Cause::Unpaired);
        }
        Ok(())
    }

    /// Reads elements up to a token that ends the level, where so many groups are open.
    #[cycle(element_level)]
    pub(crate) fn level(&mut self, depth: usize) -> Result<(), Cause>
        requires { depth ≤ 16 }
        ensures onward { Onward self.old self.new }
        ensures went { Went depth self.old self.new result }
        ensures stop { is_ok result ≡ true → at_stop self.new ≡ true }
    {
        while !self.at_stop() {
            self.element(depth)?;
        }
        Ok(())
    }

    // Reads one element, which may be a group.
    #[cycle(element_level)]
    fn element(&mut self, depth: usize) -> Result<(), Cause>
        requires shallow { depth ≤ 16 }
        requires go { at_stop self.old ≡ false }
        ensures onward { Onward self.old self.new }
        ensures forward { self.old.reader.at < self.new.reader.at }
        ensures went { Went depth self.old self.new result }
    {
        let token = self.reader.next();
        if let Token::GroupOpen = token {
            if depth >= MAX_GROUPS {
                return Err(Cause::TooMany);
            }
            let group = self.row.count();
            self.row.push(Element::Group { size: 1 })?;
            self.level(depth + 1)?;
            return self.close(group);
        }
        let element = self.leaf(token)?;
        self.row.push(element)
    }
}
