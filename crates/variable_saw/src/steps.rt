// The steps that the parameters of the variable saw take at one sample.
#[derive(Clone, Copy)]
pub struct Steps {
    pub frequency: f32,
    pub pw: f32,
    pub waveshape: f32,
}
