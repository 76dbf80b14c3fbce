ghost use Rattle.std.specs.Prelude.{◌<◌, [], ◌∷◌, ◌++◌};
ghost use Rattle.lines.specs.Decimal.{decimal};
ghost use Rattle.lines.specs.Written.{HasRoom, Written};

// A line in the making: what is written next goes to the place `at` of the space, which is the caller's.
#[derive(Drop)]
pub(crate) struct Line<'a> {
    pub(crate) space: &'a mut [u8],
    pub(crate) at: usize,
}

impl Line<'_> {
    #[inline]
    #[tactic(auto, using(row::proofs::Puts::put_one))]
    pub(crate) fn byte(&mut self, b: u8)
        requires { HasRoom self.old (b ∷ []) }
        ensures { Written self.old self.new (b ∷ []) }
    {
        self.space[self.at] = b;
        self.at += 1;
    }

    #[inline]
    pub(crate) fn text(&mut self, text: &[u8])
        requires { HasRoom self.old text.now }
        ensures { Written self.old self.new text.now }
    {
        let end = self.at + text.len();
        let space = &mut *self.space;
        space[self.at..end].copy_from_slice(text);
        self.at = end;
    }

    #[tactic(auto, using(crate::proofs::Decimals::decimal_digit, crate::proofs::Decimals::length_step))]
    pub(crate) fn number(&mut self, n: usize)
        requires { HasRoom self.old (decimal n) }
        ensures { Written self.old self.new (decimal n) }
    {
        if n < 10 {
            self.byte(b'0' + n as u8);
        } else {
            self.number(n / 10);
            let last = n % 10;
            self.byte(b'0' + last as u8);
        }
    }

    // A number below 1,000. `number` calls itself and is not inlined: rows that are written by it take three times as long.
    #[inline]
    #[tactic(auto, using(crate::proofs::Decimals::decimal_digit, crate::proofs::Decimals::decimal_two, crate::proofs::Decimals::decimal_three))]
    pub(crate) fn small(&mut self, n: u16)
        requires below { n < 1000 }
        requires room { HasRoom self.old (decimal n) }
        ensures { Written self.old self.new (decimal n) }
    {
        let last = b'0' + (n % 10) as u8;
        if n < 10 {
            self.byte(last);
        } else if n < 100 {
            self.text(&[b'0' + (n / 10) as u8, last]);
        } else {
            self.text(&[b'0' + (n / 100) as u8, b'0' + (n / 10 % 10) as u8, last]);
        }
    }

    // A text, a number, and the end of the line.
    pub(crate) fn counted(&mut self, text: &[u8], n: usize)
        requires { HasRoom self.old (text.now ++ (decimal n ++ (10 ∷ []))) }
        ensures { Written self.old self.new (text.now ++ (decimal n ++ (10 ∷ []))) }
    {
        self.text(text);
        self.number(n);
        self.byte(b'\n');
    }
}
