//! Requests of a load, byte by byte: each tenth makes a folder, and those behind it documents in it.
use load_requests::requests;
use std::test::Fail;

#[test]
fn tenth_makes_the_folder_of_the_others(rt: HostRuntime) -> Result<(), Fail> {
    let cases: [(u64, &str); 2] = [
        (
            20,
            "POST /cmis/main/root HTTP/1.1\r\nHost: x\r\nAuthorization: Basic YWRtaW46cHc=\r\nContent-Type: application/x-www-form-urlencoded\r\nContent-Length: 143\r\n\r\ncmisaction=createFolder&propertyId[0]=cmis:name&propertyValue[0]=f20&propertyId[1]=cmis:objectTypeId&propertyValue[1]=cmis:folder&succinct=true",
        ),
        (
            24,
            "POST /cmis/main/root/f20 HTTP/1.1\r\nHost: x\r\nAuthorization: Basic YWRtaW46cHc=\r\nContent-Type: application/x-www-form-urlencoded\r\nContent-Length: 147\r\n\r\ncmisaction=createDocument&propertyId[0]=cmis:name&propertyValue[0]=d24&propertyId[1]=cmis:objectTypeId&propertyValue[1]=cmis:document&succinct=true",
        ),
    ];
    for (number, want) in cases {
        let bytes = requests(rt.alloc(), &[number])?;
        assert_eq!(rt; bytes.as_slice(), want.as_bytes());
    }
    Ok(())
}
