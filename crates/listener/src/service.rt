//! What a server has served.
ghost use Rattle.std.specs.Prelude.{◌≡◌, ◌≤◌};

use crate::acceptor::Acceptor;
use crate::server::ServerTerms;
use std::marker::Model;
use step_purse::Pass;

/// What a server has served: how many sessions it started, on which terms, and with which purse, of
/// which a pass is left. It is made of an acceptor that has counted these sessions, and of nothing
/// else.
#[derive(Drop)]
pub struct Service {
    pass: Pass,
    terms: ServerTerms,
    sessions: u64,
}

impl Model for Service {
    ghost use Rattle.listener.specs.Serving.{ServiceState};

    ghost Value = { ServiceState };

    ghost view = { λ s. record { pass = s.pass; terms = s.terms; sessions = s.sessions } };
}

impl Service {
    /// That of a server on these terms which has started so many sessions.
    pub(crate) fn of<E: Acceptor>(
        acceptor: &E,
        terms: ServerTerms,
        pass: Pass,
        sessions: u64,
    ) -> Self
        requires counted { sessions ≤ (E.state acceptor.now).started }
        ensures { result ≡ record { pass = pass; terms = terms; sessions = sessions } }
    {
        let _ = acceptor;
        Service {
            pass,
            terms,
            sessions,
        }
    }

    /// How many sessions were started.
    pub fn sessions(&self) -> u64
        ensures { result ≡ self.now.sessions }
    {
        self.sessions
    }
}
