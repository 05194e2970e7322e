// Examples for rules, books and the judge; those for enquiries and sheets stand in modules of their own.
#![tactic(auto)]

#[cfg(test)]
mod answers;
#[cfg(test)]
mod enquiries;
#[cfg(test)]
mod sheets;

#[cfg(test)]
mod tests {
    use crate::answers::{Code, answered};
    use checking::book::typed::TypedBook;
    use checking::book::{Book, MOST_RULES};
    use checking::checker::{ROOM, judge};
    use checking::rule::Rule;
    use refusals::Refusal;
    use sets::parts::{Bits, PARTS};
    use std::process::Abort;
    use std::test::Fail;

    // A book of rules given by kind, heads, needs and absences.
    fn book_of(rows: &[(u8, Bits, Bits, Bits)]) -> Result<TypedBook, Fail> {
        let mut book = TypedBook::open();
        for (kind, heads, needs, absences) in rows {
            book.enter(Rule::from_numbers(*kind, *heads, *needs, *absences)?)?;
        }
        Ok(book)
    }

    fn verdict(rt: &impl Abort, book: &TypedBook, outfit: Bits) -> Result<usize, Code> {
        answered(rt, |buffer| judge(book, outfit, buffer))
    }

    #[test]
    fn kinds(rt: HostRuntime) -> Result<(), Fail> {
        for (kind, heads) in [(0, 3), (1, 0), (1, 1), (2, 4), (3, 1), (3, 3), (255, 7)] {
            let made = Rule::from_numbers(kind, heads, 0, 0);
            assert!(rt; made.is_err());
        }
        let rule = Rule::from_numbers(2, 6, 5, 1 << 63)?;
        assert_eq!(rt; u8::from(rule.kind), 2);
        assert_eq!(rt; rule.heads.to_bits(), 6);
        assert_eq!(rt; rule.needs.to_bits(), 5);
        assert_eq!(rt; rule.absences.to_bits(), 1 << 63);
        Ok(())
    }

    // a <- b, b <- a
    #[test]
    fn circle(rt: HostRuntime) -> Result<(), Fail> {
        let book = book_of(&[(0, 1, 2, 0), (0, 2, 1, 0)])?;
        assert_eq!(rt; verdict(&rt, &book, 3), Err((55, 0)));
        assert_eq!(rt; verdict(&rt, &book, 0), Ok(0));
        Ok(())
    }

    // a <- not(a), and a <- a, not(a)
    #[test]
    fn own_absence(rt: HostRuntime) -> Result<(), Fail> {
        let book = book_of(&[(0, 1, 0, 1)])?;
        assert_eq!(rt; verdict(&rt, &book, 1), Err((55, 0)));
        assert_eq!(rt; verdict(&rt, &book, 0), Err((52, 0)));
        let book = book_of(&[(0, 1, 1, 1)])?;
        assert_eq!(rt; verdict(&rt, &book, 1), Err((55, 0)));
        assert_eq!(rt; verdict(&rt, &book, 0), Ok(0));
        Ok(())
    }

    // a + b <-, a <-, b <-; and an incompatibility after them
    #[test]
    fn exclusive(rt: HostRuntime) -> Result<(), Fail> {
        let book = book_of(&[(2, 3, 0, 0), (0, 1, 0, 0), (0, 2, 0, 0), (0, 0, 0, 0)])?;
        assert_eq!(rt; verdict(&rt, &book, 3), Err((53, 0)));
        assert_eq!(rt; verdict(&rt, &book, 1), Err((52, 2)));
        let book = book_of(&[(2, 3, 0, 0), (0, 0, 2, 0)])?;
        assert_eq!(rt; verdict(&rt, &book, 2), Err((54, 1)));
        assert_eq!(rt; verdict(&rt, &book, 1), Ok(1));
        Ok(())
    }

    // a | b <- c, c <-
    #[test]
    fn choice(rt: HostRuntime) -> Result<(), Fail> {
        let book = book_of(&[(1, 3, 4, 0), (0, 4, 0, 0)])?;
        assert_eq!(rt; verdict(&rt, &book, 5), Ok(2));
        assert_eq!(rt; verdict(&rt, &book, 6), Ok(2));
        assert_eq!(rt; verdict(&rt, &book, 7), Ok(3));
        assert_eq!(rt; verdict(&rt, &book, 4), Err((52, 0)));
        assert_eq!(rt; verdict(&rt, &book, 3), Err((52, 1)));
        Ok(())
    }

    // b <- c; b <- a; a <-; c <- b: rule 0 fires for b only after b is there
    #[test]
    fn lowest_rule(rt: HostRuntime) -> Result<(), Fail> {
        let book = book_of(&[
            (0, 2, 4, 0),
            (0, 2, 1, 0),
            (0, 1, 0, 0),
            (0, 4, 2, 0),
            (0, 4, 2, 0),
        ])?;
        let mut buffer = [255; ROOM];
        assert_eq!(rt; judge(&book, 7, &mut buffer), Ok(3));
        assert!(rt; buffer[..10] == [0, 1, 2, 1, 2, 1, 2, 3, 3, 255]);
        Ok(())
    }

    #[test]
    fn rooms(rt: HostRuntime) -> Result<(), Fail> {
        let book = book_of(&[(0, 1, 0, 0)])?;
        let mut long = [255; 192];
        assert_eq!(rt; judge(&book, 1, &mut long), Ok(1));
        assert!(rt; long[..4] == [0, 1, 0, 255]);
        let mut short = [255; 191];
        assert_eq!(rt; judge(&book, 1, &mut short), Err(Refusal::ShortBuffer));
        assert_eq!(rt; judge(&book, 0, &mut short), Err(Refusal::ShortBuffer));
        assert!(rt; short == [255; 191]);
        Ok(())
    }

    #[test]
    fn full_book(rt: HostRuntime) -> Result<(), Fail> {
        let mut book = TypedBook::open();
        let rule = Rule::from_numbers(0, 1, 0, 0)?;
        for _ in 0..MOST_RULES {
            book.enter(rule)?;
        }
        assert_eq!(rt; book.enter(rule), Err(Refusal::BookFull { length: 240 }));
        assert!(rt; book.rule(239).is_some());
        assert!(rt; book.rule(240).is_none());
        assert!(rt; book.rule(usize::MAX).is_none());
        Ok(())
    }

    // each part needs the one before it
    #[test]
    fn chain(rt: HostRuntime) -> Result<(), Fail> {
        let mut book = TypedBook::open();
        for part in 0..PARTS {
            let head: Bits = 1 << part;
            book.enter(Rule::from_numbers(0, head, head >> 1, 0)?)?;
        }
        let mut buffer = [0; ROOM];
        assert_eq!(rt; judge(&book, Bits::MAX, &mut buffer), Ok(64));
        assert!(rt; buffer[..3] == [0, 1, 0]);
        assert!(rt; buffer[189..] == [63, 64, 63]);
        Ok(())
    }
}
