//! Remakes gates, one after another, from the signals that are there.

use crate::circuit::WantedNet;
use crate::making::Want;
use crate::net::{flip, word_of};
use crate::numbers::{Allocated, count, item, put};

impl WantedNet {
    /// Remakes gates wherever that takes fewer gates, or up to `more` more than that, until they no longer become fewer or `looks` words
    /// were looked at.
    pub fn improve(&mut self, more: u32, looks: &mut u64) -> Allocated<()> {
        self.net.looks = *looks;
        for _ in 0..u64::MAX {
            let len = self.net.len();
            for signal in (self.net.given..self.net.len()).rev() {
                if signal < self.net.len() && self.net.looks > 0 {
                    self.renew(signal, more)?;
                }
            }
            if self.net.len() >= len || self.net.looks == 0 {
                break;
            }
        }
        *looks = self.net.looks;
        Ok(())
    }

    /// Remakes a gate, if the net doesn't grow by it.
    fn renew(&mut self, signal: u32, more: u32) -> Allocated<()> {
        let (want, behind) = self.want_of(signal)?;
        let len = self.net.len();
        let needed = self.net.needed(&self.literals, (signal, 0), &behind)?;
        let alone = count(needed.iter().filter(|it| !**it).count());
        let most = alone.saturating_sub(1).saturating_add(more);
        self.net.barred = behind.clone()?;
        let mut made = self.net.make(&want, 0)?;
        if made.is_none() {
            for (barred, is_needed) in self.net.barred.iter_mut().zip(&needed) {
                *barred = *barred || !*is_needed;
            }
            made = self.net.make(&want, most)?;
        }
        self.net.barred.fill(false);
        if let Some(literal) = made {
            let mut literals = self.literals.clone()?;
            let net = self.net.rebuilt(&mut literals, (signal, literal), &behind)?;
            self.net.looks = net.looks;
            if net.len() <= len {
                self.net = net;
                self.literals = literals;
                return Ok(());
            }
        }
        self.net.cut(len);
        Ok(())
    }

    /// Returns what is wanted of a signal: its values at the points where a literal would be wrong if the signal were negated. Also returns
    /// which signals depend on it, itself included.
    fn want_of(&mut self, signal: u32) -> Allocated<(Want, Vec<bool>)> {
        let net = &mut self.net;
        let mut behind = vec![in net.alloc; false; net.len() as usize]?;
        let mut values = net.values.clone()?;
        net.look(net.len());
        for other in signal..net.len() {
            let (left, right) = (net.gate(other).left, net.gate(other).right);
            let leads = item(&behind, left / 2, false) || item(&behind, right / 2, false);
            let is_behind = other == signal || leads;
            put(&mut behind, other, is_behind);
            for word in 0..if is_behind { net.words } else { 0 } {
                let both = word_of(&values, left, word, net.words)
                    & word_of(&values, right, word, net.words);
                let place = other.saturating_mul(net.words).saturating_add(word);
                put(&mut values, place, both ^ flip((other == signal) as u32));
            }
        }
        let mut want = Want::new(net.alloc);
        for word in 0..net.words {
            let mut care = 0u64;
            for (literal, wanted) in self.literals.iter().zip(&self.wants) {
                let value = word_of(&values, *literal, word, net.words);
                care |= value & item(&wanted.off, word, 0) | !value & item(&wanted.on, word, 0);
            }
            let value = item(net.values(signal), word, 0);
            want.on.push(care & value)?;
            want.off.push(care & !value)?;
        }
        Ok((want, behind))
    }
}
