// What a shelf keeps for each host: its stored sense, and whether attention is pending.
#![tactic(auto)]

ghost use Rattle.std.specs.Prelude.{◌≡◌, ℕ, ◌<◌, Bool, true, if◌then◌else◌, nat_eq};
ghost use Rattle.answers.specs.declared.sense.Sense.{Sense as Stored};
ghost use Rattle.history.specs.Judgement.{on_host};
ghost use Rattle.history.specs.Replies.{shown_sense};
ghost use Rattle.history.specs.Steps.{fresh_host};
ghost use Rattle.hosts.specs.Held.{host_as, hosts_of};
ghost use Rattle.verdicts.specs.Judged.{verdict_as};

use answers::sense::Sense;
use verdicts::Verdict;

// Stored sense and pending attention are facts of their own: each may be there without the other.
#[derive(Clone, Copy)]
pub struct Host {
    pub sense: Option<Sense>,
    pub attention: bool,
}

impl Host {
    // No stored sense, and attention pending.
    pub const FRESH: Host = Host {
        sense: None,
        attention: true,
    };

    // Nothing is kept.
    const NOBODY: Host = Host {
        sense: None,
        attention: false,
    };

    // The sense that REQUEST SENSE shows.
    pub fn shown(self) -> Sense
        ensures { result ≡ shown_sense self.sense self.attention }
    {
        let unasked = if self.attention {
            Sense::Attention
        } else {
            Sense::Nothing
        };
        self.sense.unwrap_or(unasked)
    }

    // What becomes of the host by a command that comes to a verdict.
    pub fn after(self, verdict: Verdict<'_>) -> Host
        ensures { host_as result ≡ on_host (verdict_as verdict.entry) (host_as self) }
    {
        match verdict {
            Verdict::Refuse(_) | Verdict::Miss | Verdict::MissInquiry(_) | Verdict::MissSense(_) =>
                self,
            Verdict::Attend => Host {
                sense: Some(Sense::Attention),
                attention: false,
            },
            Verdict::Reject(sense) => Host {
                sense: Some(sense),
                ..self
            },
            Verdict::ShowSense(_) => Host {
                sense: None,
                attention: self.attention && self.sense.is_some(),
            },
            Verdict::Pass | Verdict::Inquire(_) | Verdict::ShowPage { .. } | Verdict::Obey(_) =>
                Host {
                    sense: None,
                    ..self
                },
        }
    }
}

// One of each of the 16 hosts, in memory of a fixed size: firmware has no heap.
#[derive(Clone, Copy)]
pub struct Hosts {
    each: [Host; 16],
}

impl Hosts {
    // Every host without stored sense, and with attention pending.
    pub fn fresh() -> Hosts
        ensures { (k : ℕ) → k < 16 → hosts_of result k ≡ fresh_host }
    {
        Hosts {
            each: [Host::FRESH; 16],
        }
    }

    // What is kept for a host; there are 16, and for any other nothing is kept.
    pub fn get(&self, host: u8) -> Host
        ensures { host_as result ≡ hosts_of self.now host }
    {
        let kept = self.each.get(usize::from(host));
        kept.copied().unwrap_or(Host::NOBODY)
    }

    // One host after a command that comes to a verdict; all others stay.
    pub fn settle(&mut self, host: u8, verdict: Verdict<'_>)
        ensures { (k : ℕ) → k < 16 → hosts_of self.new k ≡ (if nat_eq k host then on_host (verdict_as verdict.entry) (hosts_of self.old k) else hosts_of self.old k) }
    {
        // By index, since a proof knows only the length of what is written through `get_mut`.
        let k = usize::from(host);
        if k < 16 {
            self.each[k] = self.each[k].after(verdict);
        }
    }
}
