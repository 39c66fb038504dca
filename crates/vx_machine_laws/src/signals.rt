ghost use Rattle.vx_machine_laws.specs.Signals.{GiversAreThese, DriversAreThese, StrongAreThese, FedAreThese, PoweredAreThese, ActivatorsAreThese, ActiveLampsAreThese, ActivePistonsAreThese};

/// What gives power to its neighbor is a lit torch that is not mounted on it, a lever that is on,
/// or a repeater that is on and faces it. What drives a conductor is a lit torch right below it, a
/// lever that is on and mounted on it, or a repeater that is on and faces it. Nothing else does.
pub fn power_is_given()
    ensures gives { GiversAreThese }
    ensures drives { DriversAreThese }
{}

/// A conductor is strongly powered exactly where one of these drives it, and powered exactly where
/// it is that, or dust of a level over 0 lies on it or points at it from beside it.
pub fn conductors_have_power()
    ensures strong { StrongAreThese }
    ensures powered { PoweredAreThese }
{}

/// Dust is fed exactly where a neighbor gives to it or is a strongly powered conductor.
pub fn dust_is_fed()
    ensures { FedAreThese }
{}

/// A lamp is active exactly where a neighbor gives to it, is a powered conductor, or is dust of a
/// level over 0 that reaches it; a piston exactly where one does that does not stand at its front.
pub fn activity_has_a_cause()
    ensures by { ActivatorsAreThese }
    ensures lamps { ActiveLampsAreThese }
    ensures pistons { ActivePistonsAreThese }
{}
