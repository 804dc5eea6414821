//! The two sides of a connection, client and server, as rules of calls of which some entries gather
//! pieces. That none of a call that is over gathers is proved in specs/Calls/Sides.antt.
use crate::calls::side::Side;
use giop_calls::{
    CallFault, ClientEntry, ClientEvent, ClientRule, ServerEntry, ServerEvent, ServerRule,
};

impl Side for ServerRule {
    ghost use Rattle.giop_calls.specs.ServerTable.{is_gathering};
    ghost use Rattle.giop_session.specs.Calls.Sides.{server_gathering_is_open};

    ghost gathering = { is_gathering };

    ghost gathering_is_open = { λ rule. server_gathering_is_open };

    fn is_gathering(entry: &ServerEntry) -> bool {
        entry.is_gathering()
    }

    #[inline(always)]
    fn step_at(&self, entry: &mut ServerEntry, event: ServerEvent) -> Result<(), CallFault> {
        ServerRule::step_at(self, entry, event)
    }
}

impl Side for ClientRule {
    ghost use Rattle.giop_calls.specs.ClientTable.{is_gathering};
    ghost use Rattle.giop_session.specs.Calls.Sides.{client_gathering_is_open};

    ghost gathering = { is_gathering };

    ghost gathering_is_open = { λ rule. client_gathering_is_open };

    fn is_gathering(entry: &ClientEntry) -> bool {
        entry.is_gathering()
    }

    #[inline(always)]
    fn step_at(&self, entry: &mut ClientEntry, event: ClientEvent) -> Result<(), CallFault> {
        ClientRule::step_at(self, entry, event)
    }
}
