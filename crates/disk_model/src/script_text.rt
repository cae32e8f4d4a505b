/// A script in memory.
#[derive(Drop)]
pub struct ScriptText {
    pub name: String,
    pub text: Vec<u8>,
}
