use vx_places::Places;

/// Where a tick has to look: at places outside which all rests, or, where none are told, at all
/// components, which costs less where much was changed.
#[derive(Drop)]
pub struct Look {
    pub places: Option<Places>,
}
