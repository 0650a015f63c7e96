// A scheme as a guide: its bytes are read by the guide that the supplied filler serves.
ghost use Rattle.schemes.specs.Schemes.{scheme_lawful, scheme_reply};
ghost use Rattle.routing_laws.proofs.Pointing.{pointing_rules};
ghost use Rattle.routing_laws.proofs.Seeking.{optimistic_rules, zero_lawful};
ghost use Rattle.schemes.specs.declared.scheme.Scheme.TheVariants.{MdSafe, Optimistic, RandomOffline};
ghost use Rattle.std.specs.Prelude.{◌*◌, replicate};
ghost use Rattle.routing_laws.proofs.Lawful.{none_lawful};

use crate::scheme::Scheme;
use mesh::Directions;
use routing::{Guide, Optimistic, Pointing, Request};

impl Guide for Scheme {
    ghost reply = { λ g t. scheme_reply g t };

    ghost lawful = { λ g w h es filling. scheme_lawful g w h es filling };

    ghost rules = { elim [
      | MdSafe o ↦ λ w h es filling some_columns some_rows inside lawful. pointing_rules o w h es filling some_columns some_rows inside lawful
      | RandomOffline o ↦ λ w h es filling some_columns some_rows inside lawful. pointing_rules o w h es filling some_columns some_rows inside lawful
      | Optimistic ↦ λ w h es filling some_columns some_rows inside lawful. optimistic_rules w h es filling some_columns some_rows inside lawful
    ] };

    ghost none = { elim [
      | MdSafe o ↦ λ w h. none_lawful o w h (replicate (w * h) 0)
      | RandomOffline o ↦ λ w h. none_lawful o w h (replicate (w * h) 0)
      | Optimistic ↦ λ w h. zero_lawful w h (replicate (w * h) 0)
    ] };

    fn permits(&self, request: Request) -> Directions {
        match *self {
            Scheme::MdSafe(order) | Scheme::RandomOffline(order) => {
                Pointing { order }.permits(request)
            }
            Scheme::Optimistic => Optimistic.permits(request),
        }
    }
}
